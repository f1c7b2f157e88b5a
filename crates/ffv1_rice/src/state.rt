//! What is known of the differences of a context.

ghost use Rattle.std.specs.Prelude.{◌≡◌, ◌+◌, ◌-◌, ◌*◌, ◌^◌, ◌≤◌, ◌<◌, unsigned_abs};
ghost use Rattle.ffv1_rice.specs.States.{IsState, IsNearState, after, biased, halved, parameter};
ghost use Rattle.ffv1_rice.specs.States.{summed, counted, turns};

/// What is known of the differences of a context (RFC 9043, 3.8.2.3 and 3.8.2.4).
#[derive(Clone, Copy, Debug, PartialEq, Eq)]
pub struct State {
    /// The sum of the differences less the bias, brought near 0: above -count, at most 0.
    pub drift: i32,
    /// The sum of these differences without their signs.
    pub error_sum: u32,
    /// What is taken off a difference before it is coded, -128 to 127.
    pub bias: i32,
    /// How many differences count, 1 to 128.
    pub count: u32,
}

impl State {
    /// What is known before the first difference.
    pub const FRESH: State = State {
        drift: 0,
        error_sum: 4,
        bias: 0,
        count: 1,
    };

    /// How many low bits of a number are written as they are: the least k for which the mean of the
    /// differences without their signs is at most 2^k. It is below the `depth` of the differences,
    /// which is at most 9.
    #[inline(always)]
    pub fn parameter(&self, depth: u8) -> u32
        requires state { IsState depth self.now }
        requires some { 0 < depth }
        requires few { depth ≤ 9 }
        ensures value { result ≡ parameter self.now }
        ensures few { result < depth }
    {
        let mut k = 0;
        let mut most = self.count;
        while most < self.error_sum {
            most *= 2;
            k += 1;
        }
        k
    }

    /// Whether numbers below 0 come first: the mean of the differences is below -1/2.
    #[inline(always)]
    pub fn turns(&self) -> bool
        requires { IsState 9 self.now }
        ensures { result ≡ turns self.now }
    {
        2 * self.drift + (self.count as i32) < 0
    }

    /// Half of the differences are forgotten after 128.
    #[inline(always)]
    fn halved(self) -> State
        ensures { result ≡ halved self }
    {
        if self.count == 128 {
            return State {
                drift: self.drift.div_euclid(2),
                error_sum: self.error_sum / 2,
                bias: self.bias,
                count: 64,
            };
        }
        self
    }

    /// The bias moves by one towards a mean that is not from just above -1 to 0.
    #[inline(always)]
    fn biased(self) -> State
        requires { IsNearState self }
        ensures { result ≡ biased self }
    {
        let count = self.count as i32;
        if self.drift <= -count {
            return State {
                drift: (self.drift + count).max(1 - count),
                error_sum: self.error_sum,
                bias: (self.bias - 1).max(-128),
                count: self.count,
            };
        }
        if self.drift > 0 {
            return State {
                drift: (self.drift - count).min(0),
                error_sum: self.error_sum,
                bias: (self.bias + 1).min(127),
                count: self.count,
            };
        }
        self
    }

    /// Takes one difference more, less the bias, of `depth` bits, 3 to 9.
    #[inline(always)]
    pub fn take(&mut self, value: i32, depth: u8)
        requires state { IsState depth self.old }
        requires some { 3 ≤ depth }
        requires few { depth ≤ 9 }
        requires size { unsigned_abs value ≤ 2 ^ (depth - 1) }
        ensures value { self.new ≡ after self.old value }
        ensures state { IsState depth self.new }
    {
        let summed = State {
            drift: self.drift + value,
            error_sum: self.error_sum + value.unsigned_abs(),
            bias: self.bias,
            count: self.count,
        };
        let halved = summed.halved();
        let counted = State {
            drift: halved.drift,
            error_sum: halved.error_sum,
            bias: halved.bias,
            count: halved.count + 1,
        };
        *self = counted.biased();
    }
}
