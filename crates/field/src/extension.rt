// Arithmetic on extension words, by value. Products and inverses take any coefficients; sums and differences take words.
ghost use Rattle.std.specs.Prelude.{◌≡◌, ◌+◌, ◌*◌, ◌<◌, Some};
ghost use Rattle.field.specs.Base.{add_p};
ghost use Rattle.field.specs.Extension.{WordsX, text_x, lift_x, add_x, neg_x, sub_x, mul_x, scale_x, adjugate_x, inverse_x};

use super::base;
use std::fmt;
use std::ops::{Add, Mul, Neg, Sub};

// c0 + c1 X + c2 X^2, each coefficient a word. A word is a u64 and has no type of its own: words lie in slices of u64 that C lends.
#[derive(Clone, Copy, PartialEq, Eq, Debug)]
pub struct XFieldElement {
    pub c0: u64,
    pub c1: u64,
    pub c2: u64,
}

impl From<u64> for XFieldElement {
    ghost from_gives = { λ a x. x ≡ lift_x a };

    fn from(a: u64) -> XFieldElement {
        XFieldElement {
            c0: a,
            c1: 0,
            c2: 0,
        }
    }
}

impl fmt::Display for XFieldElement {
    ghost output = { λ x. Some (text_x x) };

    fn fmt<W: fmt::Write>(&self, f: &mut fmt::Formatter<W>) -> fmt::Result {
        write!(f, "[{} {} {}]", self.c0, self.c1, self.c2)
    }
}

// The three impls of an operation on each coefficient stand written out: a closure for it would have to say what it asks of each.
impl Add for XFieldElement {
    type Output = XFieldElement;

    ghost can_add = { λ x y. WordsX x × WordsX y };

    ghost add_gives = { λ x y r. r ≡ add_x x y };

    #[tactic(auto, unfolding(crate::specs::Extension::add_x))]
    fn add(self, y: XFieldElement) -> XFieldElement {
        XFieldElement {
            c0: base::add(self.c0, y.c0),
            c1: base::add(self.c1, y.c1),
            c2: base::add(self.c2, y.c2),
        }
    }
}

impl Sub for XFieldElement {
    type Output = XFieldElement;

    ghost can_sub = { λ x y. WordsX x × WordsX y };

    ghost sub_gives = { λ x y r. r ≡ sub_x x y };

    #[tactic(auto, unfolding(crate::specs::Extension::sub_x))]
    fn sub(self, y: XFieldElement) -> XFieldElement {
        XFieldElement {
            c0: base::sub(self.c0, y.c0),
            c1: base::sub(self.c1, y.c1),
            c2: base::sub(self.c2, y.c2),
        }
    }
}

impl Neg for XFieldElement {
    type Output = XFieldElement;

    ghost can_neg = { λ x. WordsX x };

    ghost neg_gives = { λ x r. r ≡ neg_x x };

    #[tactic(auto, unfolding(crate::specs::Extension::neg_x))]
    fn neg(self) -> XFieldElement {
        XFieldElement {
            c0: base::neg(self.c0),
            c1: base::neg(self.c1),
            c2: base::neg(self.c2),
        }
    }
}

// The products of X^3 and X^4 are put back as X - 1 and X^2 - X.
impl Mul for XFieldElement {
    type Output = XFieldElement;

    ghost mul_gives = { λ x y r. r ≡ mul_x x y };

    fn mul(self, y: XFieldElement) -> XFieldElement {
        let d0 = base::mul(self.c0, y.c0);
        let d1 = dot2(self.c0, y.c1, self.c1, y.c0);
        let d2 = base::add(dot2(self.c0, y.c2, self.c1, y.c1), base::mul(self.c2, y.c0));
        let d3 = dot2(self.c1, y.c2, self.c2, y.c1);
        let d4 = base::mul(self.c2, y.c2);
        XFieldElement {
            c0: base::sub(d0, d3),
            c1: base::sub(base::add(d1, d3), d4),
            c2: base::add(d2, d4),
        }
    }
}

// a * b + c * d
fn dot2(a: u64, b: u64, c: u64, d: u64) -> u64
    ensures { result ≡ add_p (a * b) (c * d) }
{
    base::add(base::mul(a, b), base::mul(c, d))
}

impl XFieldElement {
    // The product with a word.
    #[tactic(auto, unfolding(crate::specs::Extension::scale_x))]
    pub fn scale(self, b: u64) -> XFieldElement
        ensures { result ≡ scale_x b self }
    {
        XFieldElement {
            c0: base::mul(b, self.c0),
            c1: base::mul(b, self.c1),
            c2: base::mul(b, self.c2),
        }
    }

    fn adjugate(self) -> XFieldElement
        ensures { result ≡ adjugate_x self }
    {
        let ac = base::mul(self.c0, self.c2);
        let bb = base::mul(self.c1, self.c1);
        let cc = base::mul(self.c2, self.c2);
        let s = base::add(ac, cc);
        let t = base::add(dot2(self.c0, self.c0, self.c1, self.c2), ac);
        XFieldElement {
            c0: base::sub(base::add(t, s), bb),
            c1: base::neg(base::add(base::mul(self.c0, self.c1), cc)),
            c2: base::sub(bb, s),
        }
    }

    // The product's constant coefficient alone: the norm, where y is the adjugate.
    fn constant_of_product(self, y: XFieldElement) -> u64
        ensures { result ≡ (mul_x self y).c0 }
    {
        base::sub(base::mul(self.c0, y.c0), dot2(self.c1, y.c2, self.c2, y.c1))
    }

    // The inverse, and 0 for 0: the adjugate over the norm, so that one inverse of a word is enough.
    pub fn inverse_or_zero(self) -> XFieldElement
        ensures { result ≡ inverse_x self }
    {
        let k = self.adjugate();
        k.scale(base::inverse_or_zero(self.constant_of_product(k)))
    }

    // The inverse of an extension word other than 0.
    pub fn inverse(self) -> XFieldElement
        requires { (WordsX self) × (0 < self.c0 + self.c1 + self.c2) }
        ensures { (result ≡ inverse_x self) × (mul_x self result ≡ lift_x 1) }
    {
        self.inverse_or_zero()
    }
}
