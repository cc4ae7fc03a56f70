// A fitted model as the numbers that pass to and from C: its refusal and six numbers, and the model of
// a type code and six numbers.
#![tactic(auto)]

ghost use Rattle.std.specs.Prelude.{◌≡◌};
ghost use Rattle.fit_numbers.specs.Numbers.{numbers_of, fitted_of};

use fit::{AFFINE, Fitted, ROTZOOM, TRANSLATION};
use refusal::Refusal;

// A fitted model in numbers: two of a translation, four of a rotation-zoom, six of an affine model,
// zeros after them.
#[repr(C)]
#[derive(Clone, Copy)]
pub struct FitAnswer {
    pub refusal: u32,
    pub numbers: [f64; 6],
}

pub fn numbers_of(fitted: Fitted) -> FitAnswer
    ensures { result ≡ numbers_of fitted }
{
    let numbers = match fitted {
        Fitted::Refused(_) => [0.0, 0.0, 0.0, 0.0, 0.0, 0.0],
        Fitted::Translation { m0, m1 } => [m0, m1, 0.0, 0.0, 0.0, 0.0],
        Fitted::RotZoom { m0, m1, m2, m3 } => [m0, m1, m2, m3, 0.0, 0.0],
        Fitted::Affine {
            m0,
            m1,
            m2,
            m3,
            m4,
            m5,
        } => [m0, m1, m2, m3, m4, m5],
    };
    FitAnswer {
        refusal: fit::refusal_of(fitted),
        numbers,
    }
}

// The fitted model of a type code and its numbers.
pub fn fitted_of(kind: u8, numbers: [f64; 6]) -> Fitted
    ensures { result ≡ fitted_of kind numbers }
{
    match kind {
        TRANSLATION => Fitted::Translation {
            m0: numbers[0],
            m1: numbers[1],
        },
        ROTZOOM => Fitted::RotZoom {
            m0: numbers[0],
            m1: numbers[1],
            m2: numbers[2],
            m3: numbers[3],
        },
        AFFINE => Fitted::Affine {
            m0: numbers[0],
            m1: numbers[1],
            m2: numbers[2],
            m3: numbers[3],
            m4: numbers[4],
            m5: numbers[5],
        },
        _ => Fitted::Refused(Refusal::NoSuchCode.number()),
    }
}
