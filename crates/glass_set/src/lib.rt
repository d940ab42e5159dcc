// A set of glasses as a word of 64 bits: document 01, "The placing". Bit g is that of the glass at place g of the file. Built and
// tested by shifts and masks; every promise is on each bit, as specs/Internal/Member.antt defines. The words have no type of their
// own, since document 01 names them: rows of words, shifts and masks. Nor has the place of a glass, which each loop over glasses would
// make from its count: that it is below 64 is asked where a bit is shifted.
#![tactic(auto)]

ghost use Rattle.std.specs.Prelude.{◌≡◌, not, ◌&&◌, ◌||◌, ◌<◌, eqb, MatchOption};
ghost use Rattle.glass_set.specs.Internal.Member.{has, Members, Lowest, is_within};

// A set with one glass more.
#[tactic(auto, using(bits::proofs::Bits::has_or, bits::proofs::Bits::has_one))]
pub fn with(set: u64, glass: usize) -> u64
    requires { glass < 64 }
    ensures { Members result (λ g. eqb g glass || has set g) }
{
    set | (1 << glass)
}

// The glasses that are in both sets.
#[tactic(auto, using(bits::proofs::Bits::has_and))]
pub fn both(set: u64, other: u64) -> u64
    ensures { Members result (λ g. has set g && has other g) }
{
    set & other
}

// The glasses of a set that are not in another.
#[tactic(auto, using(bits::proofs::Bits::has_minus))]
pub fn minus(set: u64, other: u64) -> u64
    ensures { Members result (λ g. has set g && not (has other g)) }
{
    set & !other
}

// A set without a glass.
#[tactic(auto, using(bits::proofs::Bits::has_minus, bits::proofs::Bits::has_one))]
pub fn without(set: u64, glass: usize) -> u64
    requires { glass < 64 }
    ensures { Members result (λ g. has set g && not (eqb g glass)) }
{
    set & !(1 << glass)
}

// The first glass of a set, if it has one.
#[tactic(auto, using(bits::proofs::Bits::first_has, bits::proofs::Bits::none_below))]
pub fn find_first(set: u64) -> Option<usize>
    ensures { MatchOption result (set ≡ 0) (Lowest set) }
{
    if set == 0 {
        None
    } else {
        Some(set.trailing_zeros() as usize)
    }
}

// Whether every glass of a set is in another.
#[tactic(auto, using(crate::proofs::Members::within_minus))]
pub fn is_within(set: u64, other: u64) -> bool
    ensures { result ≡ is_within set other }
{
    minus(set, other) == 0
}
