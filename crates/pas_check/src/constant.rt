//! Constants (ISO 7185, 6.3).

ghost use Rattle.std.specs.Prelude.{◌≡◌};
ghost use Rattle.pas_check.specs.Constant as spec;
ghost use Rattle.pas_check.specs.Outcome.{Gives};
ghost use Rattle.pas_check.specs.Sight.{sight};
ghost use Rattle.pas_check.specs.Written.{written};

use crate::fault::{Fault, Rule};
use crate::meaning::{Meaning, Value};
use crate::seen::{Made, Seen};
use pas_tree::{Constant, ConstantValue, Sign};
use px_base::Span;

/// A number of the source as a value.
pub fn number(value: u32) -> i32
    ensures { result ≡ spec.number value }
{
    if value <= i32::MAX as u32 {
        value as i32
    } else {
        i32::MAX
    }
}

impl<'t> Seen<'t> {
    /// The value of a constant. A sign wants an integer.
    #[tactic(auto, unfolding(crate::specs::Constant::constant, crate::specs::Constant::signed))]
    pub fn constant(&self, made: &mut Made, constant: &Constant) -> Result<Value, Fault>
        ensures value { Gives (λ x. x) (spec.constant (sight self.now) constant.now) result }
        ensures writes { written made.new ≡ written made.old }
        ensures kept { made.new.built ≡ made.old.built }
    {
        let value = self.unsigned(made, constant.value)?;
        match constant.sign {
            None => Ok(value),
            Some(sign) => {
                if value.boolean {
                    Err(Rule::Type.broken(constant.span.start))
                } else {
                    Ok(signed(sign, value.value))
                }
            }
        }
    }

    /// The value of a constant without its sign.
    #[tactic(auto, unfolding(crate::specs::Constant::unsigned))]
    fn unsigned(&self, made: &mut Made, value: ConstantValue) -> Result<Value, Fault>
        ensures value { Gives (λ x. x) (spec.unsigned (sight self.now) value) result }
        ensures writes { written made.new ≡ written made.old }
        ensures kept { made.new.built ≡ made.old.built }
    {
        match value {
            ConstantValue::Number(value) => Ok(Value {
                boolean: false,
                value: number(value),
            }),
            ConstantValue::Name(name) => self.constant_named(made, name),
        }
    }

    /// The value of a constant by its name.
    #[tactic(auto, unfolding(crate::specs::Constant::constant_named))]
    fn constant_named(&self, made: &mut Made, name: Span) -> Result<Value, Fault>
        ensures value { Gives (λ x. x) (spec.constant_named (sight self.now) name) result }
        ensures writes { written made.new ≡ written made.old }
        ensures kept { made.new.built ≡ made.old.built }
    {
        match self.meaning(made, name)? {
            Meaning::Constant(value) => Ok(value),
            _ => Err(Rule::Kind.broken(name.start)),
        }
    }
}

/// An integer with a sign before it.
fn signed(sign: Sign, value: i32) -> Value
    ensures { result ≡ spec.with_sign sign value }
{
    Value {
        boolean: false,
        value: match sign {
            Sign::Plus => value,
            Sign::Minus => value.wrapping_neg(),
        },
    }
}
