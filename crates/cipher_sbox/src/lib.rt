// S0 and S1, the two substitutions of a byte, and what works them out: byte tables, which the crate
// cipher_tables has, or the rules.

#![tactic(auto)]

pub mod rules;

ghost use Rattle.std.specs.Prelude.{◌≡◌, ◌<◌};
ghost use Rattle.cipher_sbox.specs.Boxes.{box};

// What works out the boxes. It is a type and no value: code is made for each, with nothing to
// choose in a round.
pub trait Boxes {
    // Box i of a byte: S0 is number 0, S1 number 1.
    fn substitute(i: usize, x: u8) -> u8
        requires { i < 2 }
        ensures { result ≡ box i x };
}

// The boxes worked out from the rules.
pub struct ByRules;

impl Boxes for ByRules {
    fn substitute(i: usize, x: u8) -> u8 {
        if i == 0 { rules::s0(x) } else { rules::s1(x) }
    }
}
