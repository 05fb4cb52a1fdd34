// A set of numbers from 1 to 64, by value: the number n is the bit at the place n - 1.
#![tactic(auto)]

ghost use Rattle.std.specs.Prelude.{◌≡◌, false, [], ◌∷◌, MatchOption};
ghost use Rattle.std.specs.Iterator.{YieldsFirst, item_count};
ghost use Rattle.sets.specs.Sets.{member, empty_set, single, ◌∪◌, ◌∩◌, ◌∖◌, same_set, subset, stored, loaded};
ghost use Rattle.sets.specs.Members.{members, next_member};

// The greatest number that may be a member, and the one that stands for none.
const GREATEST: usize = 64;

const NONE: usize = GREATEST + 1;

#[derive(Clone, Copy, PartialEq, Eq)]
pub struct Set {
    bits: u64,
}

// The members that a walk over a set has still to come to, in rising order: each call of `next` takes the least one off.
#[derive(Clone, Copy)]
pub struct Members {
    left: Set,
}

impl Iterator for Members {
    type Item = usize;

    ghost next_gives = { YieldsFirst (λ walk. members walk.left) };

    ghost remaining = { item_count (λ walk. members walk.left) };

    fn next(&mut self) -> Option<usize> {
        let (least, others) = self.left.split_lowest()?;
        self.left = others;
        Some(least)
    }
}

impl Set {
    // No member.
    pub const EMPTY: Set = Set { bits: 0 };

    // The set of `n` alone; empty where `n` is not from 1 to 64.
    pub fn of(n: usize) -> Set
        ensures { result ≡ single n }
    {
        if n < 1 {
            return Set::EMPTY;
        }
        if GREATEST < n {
            return Set::EMPTY;
        }
        let place = n - 1;
        let bits = 1u64 << place;
        Set { bits }
    }

    // The members of either.
    pub fn union(self, other: Set) -> Set
        ensures { result ≡ self ∪ other }
    {
        Set {
            bits: self.bits | other.bits,
        }
    }

    // The members of both.
    pub fn intersection(self, other: Set) -> Set
        ensures { result ≡ self ∩ other }
    {
        Set {
            bits: self.bits & other.bits,
        }
    }

    // The members that `other` lacks.
    pub fn difference(self, other: Set) -> Set
        ensures { result ≡ self ∖ other }
    {
        Set {
            bits: self.bits & !other.bits,
        }
    }

    // Whether `n` is a member.
    pub fn has(self, n: usize) -> bool
        ensures { result ≡ member self n }
    {
        if n < 1 {
            return false;
        }
        if GREATEST < n {
            return false;
        }
        (self.bits >> (n - 1)) & 1 == 1
    }

    // Whether both have the same members: `==`, in the word that theorems have for it, `same_set`.
    pub fn same(self, other: Set) -> bool
        ensures { result ≡ same_set self other }
    {
        self == other
    }

    // Whether `other` has every member.
    pub fn is_subset(self, other: Set) -> bool
        ensures { result ≡ subset self other }
    {
        self.difference(other).is_empty()
    }

    // The members, in rising order.
    pub fn members(self) -> Members
        ensures { members result.left ≡ members self }
    {
        Members { left: self }
    }

    // The least member above `n`, or 65 where there is none, in one step. A loop over all members starts at `n` = 0.
    pub fn after(self, n: usize) -> usize
        ensures { result ≡ next_member self n }
    {
        if GREATEST <= n {
            return NONE;
        }
        let rest = self.bits >> n;
        let zeros = u64::trailing_zeros(rest) as usize;
        let found = n + 1 + zeros;
        if found < NONE { found } else { NONE }
    }

    // Whether there is no member.
    pub fn is_empty(self) -> bool
        ensures { result ≡ same_set self empty_set }
    {
        self.bits == 0
    }

    // The least member, or 65 where there is none. A loop takes it off until the set is empty: the law `members_lowest`.
    pub fn lowest(self) -> usize
        ensures { result ≡ next_member self 0 }
    {
        let zeros = u64::trailing_zeros(self.bits) as usize;
        1 + zeros
    }

    // The members but for the least one.
    pub fn without_lowest(self) -> Set
        requires { same_set self empty_set ≡ false }
        ensures { result ≡ self ∖ single (next_member self 0) }
    {
        Set {
            bits: self.bits & (self.bits - 1),
        }
    }

    // The least member and the others; none of the empty set.
    fn split_lowest(self) -> Option<(usize, Set)>
        ensures { MatchOption result (members self ≡ []) (λ r. members self ≡ r.0 ∷ members r.1) }
    {
        if self.is_empty() {
            return None;
        }
        Some((self.lowest(), self.without_lowest()))
    }

    // The set as one word of memory, for tables of sets; 0 is the empty set. By name and not by `From`: a number is no set elsewhere.
    pub fn stored(self) -> u64
        ensures { result ≡ stored self }
    {
        let word = self.bits;
        word
    }

    // The set that a word was stored for.
    pub fn loaded(word: u64) -> Set
        ensures { result ≡ loaded word }
    {
        Set { bits: word }
    }
}
