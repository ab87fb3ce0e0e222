//! What a program has around it: files that it asks for by name, bytes that are given to it and sinks that take bytes.
//! Each counts its faults, so that a caller can tell an answer that the outside caused from one that was made up.
ghost use Rattle.std.specs.Prelude.{◌≡◌, ◌<◌, ◌≤◌, ◌↔◌, ℕ, List, Option, Some, length, take, is_err, IfOk, OnOk, OnErr};
ghost use Rattle.px_base.specs.Bytes.{Gives, IsAtEnd, Adds, Keeps, ForFile};
ghost use Rattle.px_base.specs.Faults.{HasCause};

/// A fault of the outside.
#[derive(Clone, Copy, Debug, PartialEq, Eq)]
pub struct Failed;

/// Files that are asked for by name, one at a time.
pub trait Shelf {
    /// How often a call has failed.
    ghost faults: { Self → ℕ };

    /// Whether a name may be asked for.
    ghost may_ask: { Self → List ℕ → Type 0 };

    /// What is told of the file under a name: nothing, that there is none, or its bytes.
    ghost file: { Self → List ℕ → Option (Option (List ℕ)) };

    /// What is told of the bytes that are left of the picked file.
    ghost left: { Self → Option (List ℕ) };

    /// Opens the file under a name, which `read` then reads from its start.
    fn pick(&mut self, name: &str) -> Result<(), Failed>
        requires { may_ask self.old name.now }
        ensures opened { OnOk result (ForFile (file self.old name.now) (λ bytes. left self.new ≡ Some bytes)) }
        ensures names { (n : List ℕ) → may_ask self.new n ↔ may_ask self.old n }
        ensures files { (n : List ℕ) → file self.new n ≡ file self.old n }
        ensures cause { HasCause (faults self.old) (faults self.new) (is_err result) };

    /// Puts the next bytes of the picked file at the start of the buffer and answers how many they are. An answer of 0
    /// into a buffer that isn't empty is the end. What the rest of the buffer holds isn't said.
    fn read(&mut self, buf: &mut [u8]) -> Result<usize, Failed>
        ensures fits { IfOk result (λ n. n ≤ length buf.old) }
        ensures bytes { IfOk result (λ n. Gives (left self.old) (left self.new) (take n buf.new)) }
        ensures end { IfOk result (λ n. n ≡ 0 → 0 < length buf.old → IsAtEnd (left self.old)) }
        ensures names { (n : List ℕ) → may_ask self.new n ↔ may_ask self.old n }
        ensures files { (n : List ℕ) → file self.new n ≡ file self.old n }
        ensures cause { HasCause (faults self.old) (faults self.new) (is_err result) };
}

/// Bytes that are given, from the first to the last.
pub trait Source {
    /// How often a call has failed.
    ghost faults: { Self → ℕ };

    /// What is told of the bytes that are left.
    ghost left: { Self → Option (List ℕ) };

    /// Puts the next bytes at the start of the buffer and answers how many they are. An answer of 0 into a buffer that
    /// isn't empty is the end. What the rest of the buffer holds isn't said.
    fn read(&mut self, buf: &mut [u8]) -> Result<usize, Failed>
        ensures fits { IfOk result (λ n. n ≤ length buf.old) }
        ensures bytes { IfOk result (λ n. Gives (left self.old) (left self.new) (take n buf.new)) }
        ensures end { IfOk result (λ n. n ≡ 0 → 0 < length buf.old → IsAtEnd (left self.old)) }
        ensures cause { HasCause (faults self.old) (faults self.new) (is_err result) };
}

/// What takes bytes.
pub trait Sink {
    /// How often a call has failed.
    ghost faults: { Self → ℕ };

    /// What is told of the bytes that were taken.
    ghost taken: { Self → Option (List ℕ) };

    /// Takes bytes from the start of the piece and answers how many: at least one, unless the piece is empty. Where it
    /// can take none, it fails.
    fn write(&mut self, bytes: &[u8]) -> Result<usize, Failed>
        ensures fits { IfOk result (λ n. n ≤ length bytes.now) }
        ensures goes_on { IfOk result (λ n. 0 < length bytes.now → 0 < n) }
        ensures bytes { IfOk result (λ n. Adds (taken self.old) (taken self.new) (take n bytes.now)) }
        ensures none { OnErr result (Keeps (taken self.old) (taken self.new)) }
        ensures cause { HasCause (faults self.old) (faults self.new) (is_err result) };
}
