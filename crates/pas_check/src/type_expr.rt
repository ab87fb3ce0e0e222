//! Types as they are written (ISO 7185, 6.4).

ghost use Rattle.std.specs.Prelude.{◌≡◌, ◌∷◌, ◌++◌, [], OnOk, map, reverse};
ghost use Rattle.pas_check.specs.Declarations as declared;
ghost use Rattle.pas_check.specs.Declarations.{arrays_of, index_types, subrange, type_test, with_types};
ghost use Rattle.pas_check.specs.Outcome.{Gives};
ghost use Rattle.pas_check.specs.Sight.{sight};
ghost use Rattle.pas_check.specs.TypeExpr as spec;

use crate::checker::Checker;
use crate::fault::{Fault, Rule};
use crate::meaning::Meaning;
use crate::seen::{Made, Seen};
use pas_tree::{Constant, TypeExpr};
use px_base::Span;
use std::alloc::AllocError;

/// The place of the first token of a type.
#[tactic(auto, unfolding(crate::specs::Declarations::type_test))]
fn first_of(of_type: &TypeExpr) -> u32
    ensures { result ≡ (type_test of_type.now).first }
{
    match of_type {
        TypeExpr::Name { name: span }
        | TypeExpr::Range { span, .. }
        | TypeExpr::Array { span, .. } => span.start,
    }
}

impl<'t> Seen<'t> {
    /// The array type over these index types, the outermost first: an array of arrays where they are more than one.
    #[tactic(auto, unfolding(crate::specs::Sight::sight))]
    fn arrays(&mut self, indexes: Vec<u32>, element: u32, at: u32) -> Result<u32, Fault>
        ensures value { Gives (λ t. (t, self.new.types.list.list)) (arrays_of self.old.types.list.list (reverse indexes.items) element at) result }
        ensures kept { OnOk result (sight self.new ≡ with_types (sight self.old) self.new.types.list.list) }
    {
        let mut left = indexes;
        let mut number = element;
        while let Some(index) = left.pop() {
            number = self.types.add_array(index, number, at)?;
        }
        Ok(number)
    }

    /// The type that a name stands for.
    #[tactic(auto, unfolding(crate::specs::TypeExpr::named_type))]
    pub fn named_type(&self, made: &mut Made, name: Span) -> Result<u32, Fault>
        ensures value { Gives (λ t. t) (spec.named_type (sight self.now) name) result }
        ensures kept { made.new.built ≡ made.old.built }
    {
        match self.meaning(made, name)? {
            Meaning::Type(number) => Ok(number),
            _ => Err(Rule::Kind.broken(name.start)),
        }
    }
}

impl<'t> Checker<'t> {
    /// The type that is denoted. Each subrange and each array is a new one.
    #[tactic(auto, unfolding(crate::specs::Declarations::type_test, crate::specs::Declarations::name_read, crate::specs::Declarations::array_read, crate::specs::Sight::sight))]
    #[cycle(type_expr)]
    pub fn type_expr(&mut self, of_type: &TypeExpr) -> Result<u32, Fault>
        ensures value { Gives (λ t. (t, self.new.seen.types.list.list)) ((type_test of_type.now).read (sight self.old.seen)) result }
        ensures kept { OnOk result (sight self.new.seen ≡ with_types (sight self.old.seen) self.new.seen.types.list.list) }
        ensures built { self.new.made.built ≡ self.old.made.built }
    {
        match of_type {
            TypeExpr::Name { name } => self.seen.named_type(&mut self.made, *name),
            TypeExpr::Range { lo, hi, .. } => self.subrange(lo, hi),
            TypeExpr::Array {
                indexes,
                element,
                span,
            } => {
                let indexes = self.index_types(indexes.as_slice())?;
                let element = self.type_expr(element.get())?;
                self.seen.arrays(indexes, element, span.start)
            }
        }
    }

    /// The index types of an array.
    #[tactic(auto, unfolding(crate::specs::Sight::sight))]
    #[cycle(type_expr)]
    fn index_types(&mut self, indexes: &[TypeExpr]) -> Result<Vec<u32>, Fault>
        ensures value { Gives (λ ts. (reverse ts.items, self.new.seen.types.list.list)) (index_types (sight self.old.seen) (map type_test indexes.now) []) result }
        ensures kept { OnOk result (sight self.new.seen ≡ with_types (sight self.old.seen) self.new.seen.types.list.list) }
        ensures built { self.new.made.built ≡ self.old.made.built }
    {
        let mut numbers = Vec::new(self.seen.alloc);
        for index in indexes {
            let number = self.index_type(index)?;
            push(&mut numbers, number).map_err(Fault::Memory)?;
        }
        Ok(numbers)
    }

    /// An index type, which is a scalar.
    #[tactic(auto, unfolding(crate::specs::Declarations::index_type, crate::specs::Sight::sight))]
    #[cycle(type_expr)]
    fn index_type(&mut self, index: &TypeExpr) -> Result<u32, Fault>
        ensures value { Gives (λ t. (t, self.new.seen.types.list.list)) (declared.index_type (sight self.old.seen) (type_test index.now)) result }
        ensures kept { OnOk result (sight self.new.seen ≡ with_types (sight self.old.seen) self.new.seen.types.list.list) }
        ensures built { self.new.made.built ≡ self.old.made.built }
    {
        let number = self.type_expr(index)?;
        if self.seen.types.host(number).is_none() {
            return Err(Rule::Type.broken(first_of(index)));
        }
        Ok(number)
    }

    #[tactic(auto, unfolding(crate::specs::Declarations::subrange, crate::specs::Sight::sight))]
    fn subrange(&mut self, lo: &Constant, hi: &Constant) -> Result<u32, Fault>
        ensures value { Gives (λ t. (t, self.new.seen.types.list.list)) (subrange (sight self.old.seen) lo.now hi.now) result }
        ensures kept { OnOk result (sight self.new.seen ≡ with_types (sight self.old.seen) self.new.seen.types.list.list) }
        ensures built { self.new.made.built ≡ self.old.made.built }
    {
        let low = self.seen.constant(&mut self.made, lo)?;
        let high = self.seen.constant(&mut self.made, hi)?;
        if low.boolean != high.boolean {
            return Err(Rule::Type.broken(hi.span.start));
        }
        self.seen
            .types
            .add_range(low.boolean, low.value, high.value, lo.span.start)
    }
}

fn push(numbers: &mut Vec<u32>, number: u32) -> Result<(), AllocError>
    ensures { OnOk result (numbers.new.items ≡ numbers.old.items ++ number ∷ []) }
{
    numbers.push(number)?;
    Ok(())
}
