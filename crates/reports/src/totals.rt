// The totals of the answers: a count for each code, which stand in a slice, and two sums. They stay at the top where 64 bits end.
ghost use Rattle.std.specs.Prelude.{◌≡◌, ◌+◌, ◌≤◌, ◌<◌, length};
ghost use Rattle.reports.specs.Dividing.{too_long_line};
ghost use Rattle.reports.specs.Totals.{codes, capped, totals_of, counted};

use refusals::Refusal;

// Codes that an answer may have: 0 to 32.
pub const CODES: usize = 33;

#[derive(Clone, Copy)]
pub struct Sums {
    pub units: u64,
    pub images: u64,
}

impl Sums {
    // Takes one answer more into the totals.
    pub fn count(self, counts: &mut [u64], code: u32, units: u32) -> Sums
        requires { code < length counts.old }
        ensures { totals_of result counts.new ≡ counted (record { code = code; units = units }) (totals_of self counts.old) }
    {
        let i = code as usize;
        counts[i] = counts[i].saturating_add(1);
        Sums {
            units: self.units.saturating_add(units as u64),
            images: self.images.saturating_add(1),
        }
    }

    // The same of an image over 65,536 bytes: code 2 with no units.
    pub fn count_too_long(self, counts: &mut [u64]) -> Sums
        requires { codes ≤ length counts.old }
        ensures { totals_of result counts.new ≡ counted too_long_line (totals_of self counts.old) }
    {
        self.count(counts, Refusal::OverLimit.code(), 0)
    }
}
