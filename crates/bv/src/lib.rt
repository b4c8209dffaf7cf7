// The operators of SMT-LIB's bit-vectors on machine words: a vector of width 1 to 64 is its width and its number. Each contract is by the
// definition of the same name in `vectors`.
#![tactic(auto)]

ghost use Rattle.std.specs.Prelude.{◌≡◌, ◌+◌, ◌-◌, ◌*◌, ◌/◌, ◌%◌, ◌^◌, ◌<◌, ◌≤◌, true, false, if◌then◌else◌};
ghost use Rattle.vectors.specs.Vectors as smt;
ghost use Rattle.bv.specs.Ranges.{Width, One};

// A vector of a width that a machine word holds.
#[derive(Clone, Copy, Debug, PartialEq, Eq)]
pub struct Vector {
    pub width: u64,
    pub number: u64,
    pub ghost one: { One width number },
}

impl Vector {
    // The vector of this width and number. Ruled out: the vector 0; a width of 64 for any.
    pub fn new(width: u64, number: u64) -> Vector
        requires { One width number }
        ensures width { result.width ≡ width }
        ensures number { result.number ≡ number }
    {
        Vector { width, number }
    }

    // The largest vector of a width. Ruled out: 2 ^ width; the largest of one place less.
    pub fn ones(width: u64) -> Vector
        requires { Width width }
        ensures width { result.width ≡ width }
        ensures number { result.number + 1 ≡ 2 ^ width }
    {
        Vector {
            width,
            number: u64::MAX >> (64 - width),
        }
    }

    // The lowest places of x, as many as the width has. Ruled out: the highest; one place more.
    pub fn low(width: u64, x: u64) -> Vector
        requires { Width width }
        ensures width { result.width ≡ width }
        ensures number { result.number ≡ x % 2 ^ width }
    {
        Vector {
            width,
            number: x & Vector::ones(width).number,
        }
    }

    // Another vector of the same width.
    fn with(self, number: u64) -> Vector
        requires { number < 2 ^ self.width }
        ensures width { result.width ≡ self.width }
        ensures number { result.number ≡ number }
    {
        Vector {
            width: self.width,
            number,
        }
    }

    // Is the highest place 1. Ruled out: the lowest place; every vector but 0.
    pub fn negative(self) -> bool
        ensures { result ≡ smt.negative self.width self.number }
    {
        self.number >> (self.width - 1) == 1
    }

    // Ruled out: the complement of 64 places; the negation.
    pub fn bvnot(self) -> Vector
        ensures width { result.width ≡ self.width }
        ensures number { result.number ≡ smt.bvnot self.width self.number }
    {
        self.with(Vector::ones(self.width).number - self.number)
    }

    // Ruled out: `bvor`; 1 where both are not 0.
    pub fn bvand(self, t: Vector) -> Vector
        requires { t.width ≡ self.width }
        ensures width { result.width ≡ self.width }
        ensures number { result.number ≡ smt.bvand self.width self.number t.number }
    {
        self.with(self.number & t.number)
    }

    // Ruled out: `bvxor`; the sum.
    pub fn bvor(self, t: Vector) -> Vector
        requires { t.width ≡ self.width }
        ensures width { result.width ≡ self.width }
        ensures number { result.number ≡ smt.bvor self.width self.number t.number }
    {
        self.with(self.number | t.number)
    }

    // Ruled out: `bvor`; the places where both agree.
    pub fn bvxor(self, t: Vector) -> Vector
        requires { t.width ≡ self.width }
        ensures width { result.width ≡ self.width }
        ensures number { result.number ≡ smt.bvxor self.width self.number t.number }
    {
        self.with(self.number ^ t.number)
    }

    // Ruled out: 2 ^ w for 0; the complement.
    pub fn bvneg(self) -> Vector
        ensures width { result.width ≡ self.width }
        ensures number { result.number ≡ smt.bvneg self.width self.number }
    {
        Vector::low(self.width, self.number.wrapping_neg())
    }

    // Ruled out: a sum with the place above; one that is held at the largest vector.
    pub fn bvadd(self, t: Vector) -> Vector
        requires { t.width ≡ self.width }
        ensures width { result.width ≡ self.width }
        ensures number { result.number ≡ smt.bvadd self.width self.number t.number }
    {
        Vector::low(self.width, self.number.wrapping_add(t.number))
    }

    // By the definition, with no test on the operands. Ruled out: the difference the other way about; 0 where t is above.
    pub fn bvsub(self, t: Vector) -> Vector
        requires { t.width ≡ self.width }
        ensures width { result.width ≡ self.width }
        ensures number { result.number ≡ smt.bvsub self.width self.number t.number }
    {
        self.bvadd(t.bvneg())
    }

    // Ruled out: a product that is held at the largest number; places above the width.
    pub fn bvmul(self, t: Vector) -> Vector
        requires { t.width ≡ self.width }
        ensures width { result.width ≡ self.width }
        ensures number { result.number ≡ smt.bvmul self.width self.number t.number }
    {
        Vector::low(self.width, self.number.wrapping_mul(t.number))
    }

    // Ruled out: 0 by zero; a quotient that is rounded up.
    pub fn bvudiv(self, t: Vector) -> Vector
        requires { t.width ≡ self.width }
        ensures width { result.width ≡ self.width }
        ensures number { result.number ≡ smt.bvudiv self.width self.number t.number }
    {
        if t.number == 0 {
            return Vector::ones(self.width);
        }
        self.with(self.number / t.number)
    }

    // Ruled out: 0 by zero; the quotient.
    pub fn bvurem(self, t: Vector) -> Vector
        requires { t.width ≡ self.width }
        ensures width { result.width ≡ self.width }
        ensures number { result.number ≡ smt.bvurem self.width self.number t.number }
    {
        if t.number == 0 {
            return self; // by zero
        }
        self.with(self.number % t.number)
    }

    // Without the sign. One division serves all four cases of the signs.
    fn magnitude(self) -> Vector
        ensures width { result.width ≡ self.width }
        ensures number { result.number ≡ (if smt.negative self.width self.number then smt.bvneg self.width self.number else self.number) }
    {
        if self.negative() { self.bvneg() } else { self }
    }

    // Ruled out: -4 for -7 by 2; all ones for -7 by 0.
    pub fn bvsdiv(self, t: Vector) -> Vector
        requires { t.width ≡ self.width }
        ensures width { result.width ≡ self.width }
        ensures number { result.number ≡ smt.bvsdiv self.width self.number t.number }
    {
        let q = self.magnitude().bvudiv(t.magnitude());
        if self.negative() == t.negative() {
            q
        } else {
            q.bvneg()
        }
    }

    // Ruled out: the sign of the divisor; 0 by zero.
    pub fn bvsrem(self, t: Vector) -> Vector
        requires { t.width ≡ self.width }
        ensures width { result.width ≡ self.width }
        ensures number { result.number ≡ smt.bvsrem self.width self.number t.number }
    {
        let r = self.magnitude().bvurem(t.magnitude());
        if self.negative() { r.bvneg() } else { r }
    }

    // Ruled out: the amount modulo the width; places above the width.
    pub fn bvshl(self, t: Vector) -> Vector
        requires { t.width ≡ self.width }
        ensures width { result.width ≡ self.width }
        ensures number { result.number ≡ smt.bvshl self.width self.number t.number }
    {
        if self.width <= t.number {
            return self.with(0); // all places are gone
        }
        Vector::low(self.width, self.number << t.number)
    }

    // Ruled out: the arithmetic shift; the amount modulo the width.
    pub fn bvlshr(self, t: Vector) -> Vector
        requires { t.width ≡ self.width }
        ensures width { result.width ≡ self.width }
        ensures number { result.number ≡ smt.bvlshr self.width self.number t.number }
    {
        if self.width <= t.number {
            return self.with(0);
        }
        self.with(self.number >> t.number)
    }

    // Ruled out: the logical shift; 0 where a negative vector is shifted by the width.
    pub fn bvashr(self, t: Vector) -> Vector
        requires { t.width ≡ self.width }
        ensures width { result.width ≡ self.width }
        ensures number { result.number ≡ smt.bvashr self.width self.number t.number }
    {
        if self.negative() {
            self.bvnot().bvlshr(t).bvnot()
        } else {
            self.bvlshr(t)
        }
    }

    // This vector before t. Ruled out: t before it; it moved by its own width.
    pub fn concat(self, t: Vector) -> Vector
        requires { self.width + t.width ≤ 64 }
        ensures width { result.width ≡ self.width + t.width }
        ensures number { result.number ≡ smt.concat self.width t.width self.number t.number }
    {
        Vector {
            width: self.width + t.width,
            number: (self.number << t.width) | t.number,
        }
    }

    // Places i down to j. Ruled out: place i left out; places counted from the highest.
    pub fn extract(self, i: u64, j: u64) -> Vector
        requires { (j ≤ i) × (i < self.width) }
        ensures width { result.width ≡ i - j + 1 }
        ensures number { result.number ≡ smt.extract i j self.number }
    {
        Vector::low(i - j + 1, self.number >> j)
    }

    // Ruled out: ones in front; zeros behind.
    pub fn zero_extend(self, i: u64) -> Vector
        requires { self.width + i ≤ 64 }
        ensures width { result.width ≡ self.width + i }
        ensures number { result.number ≡ smt.zero_extend i self.width self.number }
    {
        Vector {
            width: self.width + i,
            number: self.number,
        }
    }

    // Ruled out: zeros in front of a negative vector; ones in front of any.
    pub fn sign_extend(self, i: u64) -> Vector
        requires { self.width + i ≤ 64 }
        ensures width { result.width ≡ self.width + i }
        ensures number { result.number ≡ smt.sign_extend i self.width self.number }
    {
        if i == 0 {
            return self;
        }
        if self.negative() {
            Vector::ones(i).concat(self)
        } else {
            self.zero_extend(i)
        }
    }

    // Its lowest places, so many, before those above them.
    fn exchanged(self, lowest: u64) -> Vector
        requires { lowest ≤ self.width }
        ensures width { result.width ≡ self.width }
        ensures number { result.number ≡ (self.number % 2 ^ lowest) * 2 ^ (self.width - lowest) + self.number / 2 ^ lowest }
    {
        if lowest == 0 || lowest == self.width {
            return self;
        }
        let above = Vector {
            width: self.width - lowest,
            number: self.number >> lowest,
        };
        Vector::low(lowest, self.number).concat(above)
    }

    // Ruled out: the other way round; the places that leave lost.
    pub fn rotate_left(self, k: u64) -> Vector
        requires { k < self.width }
        ensures width { result.width ≡ self.width }
        ensures number { result.number ≡ smt.rotate_left k self.width self.number }
    {
        self.exchanged(self.width - k)
    }

    // Ruled out: the other way round; the places that leave lost.
    pub fn rotate_right(self, k: u64) -> Vector
        requires { k < self.width }
        ensures width { result.width ≡ self.width }
        ensures number { result.number ≡ smt.rotate_right k self.width self.number }
    {
        self.exchanged(k)
    }

    // The signed order, from that of the numbers: of two signs the negative vector is below.
    fn ordered(self, t: Vector, numbers: bool) -> bool
        ensures { result ≡ (if smt.negative self.width self.number then (if smt.negative t.width t.number then numbers else true) else (if smt.negative t.width t.number then false else numbers)) }
    {
        let minus = self.negative();
        if minus == t.negative() {
            numbers
        } else {
            minus // the negative one is below
        }
    }

    // Ruled out: the unsigned order; true where the two are equal.
    pub fn bvslt(self, t: Vector) -> bool
        requires { t.width ≡ self.width }
        ensures { result ≡ smt.bvslt self.width self.number t.number }
    {
        self.ordered(t, self.number < t.number)
    }

    // Ruled out: the unsigned order; false where the two are equal.
    pub fn bvsle(self, t: Vector) -> bool
        requires { t.width ≡ self.width }
        ensures { result ≡ smt.bvsle self.width self.number t.number }
    {
        self.ordered(t, self.number <= t.number)
    }
}
