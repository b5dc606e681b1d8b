// On which days an event falls by its rule: the first from a day on, and how many up to a day.
// No loop goes over days, weeks or times, so an answer costs the same however long ago the first day was.
ghost use Rattle.std.specs.Prelude.{◌≡◌, ◌<◌, ◌≤◌, true, false, Some, Ok, Err, MatchResult, codes};
ghost use Rattle.pages.specs.Lists.{pick};
ghost use Rattle.recurrence.specs.Event.{falls};
ghost use Rattle.recurrence.specs.Value.{kind_number, repeat_of};
ghost use Rattle.recurrence.specs.ByRule.{day_limit, known, next_daily, next_day, next_due};
ghost use Rattle.recurrence.specs.First.{answer, fallen, in_times, not_known, Tells, RulesRight};

use crate::event::{Kind, Repeat};
use std::error::Error;
use std::fmt;

// Why there is no answer.
#[derive(Clone, Copy, Debug, PartialEq, Eq)]
pub struct NotKnown;

impl fmt::Display for NotKnown {
    ghost output = { λ _. Some (codes "its kind is not known here, or a number is out of range") };

    fn fmt<W: fmt::Write>(&self, f: &mut fmt::Formatter<W>) -> fmt::Result {
        f.write_str("its kind is not known here, or a number is out of range")
    }
}

impl Error for NotKnown {}

// Far from every day, and so small that no sum leaves 64 bits.
const LIMIT: u64 = 4_294_967_296;

// A repeat and its first day, of a kind that is known here and with no number out of range.
#[derive(Clone, Copy)]
pub(crate) struct Rule {
    pub(crate) repeat: Repeat,
    pub(crate) first: u64,
    ghost kind: { kind_number repeat.kind ≤ 2 },
    ghost low: { 1 ≤ repeat.step },
    ghost high: { repeat.step ≤ day_limit },
    ghost begins: { first ≤ day_limit },
    ghost ends: { repeat.last < day_limit },
}

impl Repeat {
    // The first day from one on, on which it falls.
    #[tactic(auto, using(crate::proofs::Nexts::rules_right))]
    pub fn next(self, first: u64, from: u64) -> Result<Option<u64>, NotKnown>
        ensures is { result ≡ answer (known (repeat_of self) first from) (next_day (repeat_of self) first from) }
        ensures tells { Tells (known (repeat_of self) first from) (falls (repeat_of self) first) from result }
        ensures right { RulesRight }
    {
        Ok(self.rule(first, from)?.next(from))
    }

    // How many days it has fallen on, from its first day up to a day.
    pub fn count(self, first: u64, day: u64) -> Result<u64, NotKnown>
        ensures { result ≡ pick (known (repeat_of self) first day) (Ok (fallen (repeat_of self) first day)) (Err not_known) }
    {
        Ok(self.rule(first, day)?.count(day))
    }

    // Its rule, where that is known and answers for a day.
    pub(crate) fn rule(self, first: u64, day: u64) -> Result<Rule, NotKnown>
        ensures { MatchResult result (λ rule. (known (repeat_of self) first day ≡ true) × (rule.repeat ≡ self) × (rule.first ≡ first)) (λ _. known (repeat_of self) first day ≡ false) }
    {
        let by_rule = matches!(&self.kind, Kind::Once | Kind::Daily | Kind::Weekly);
        let in_range = (1..=LIMIT).contains(&self.step)
            && first <= LIMIT
            && self.last < LIMIT
            && day <= LIMIT;
        if by_rule && in_range {
            Ok(Rule {
                repeat: self,
                first,
            })
        } else {
            Err(NotKnown)
        }
    }
}

impl Rule {
    // The first day from one on, on which it falls.
    #[tactic(auto, using(crate::proofs::Nexts::next_past), unfolding(crate::specs::ByRule::next_day))]
    pub(crate) fn next(self, from: u64) -> Option<u64>
        ensures { result ≡ next_day (repeat_of self.repeat) self.first from }
    {
        let start = from.max(self.first);
        if start > self.repeat.last {
            return None;
        }
        self.next_due(start).filter(|&day| day <= self.repeat.last)
    }

    // The same with no last day. Start is made once, in next, so these three ask for its bounds and no type holds them.
    fn next_due(self, start: u64) -> Option<u64>
        requires { (self.first ≤ start) × (start ≤ day_limit) }
        ensures { result ≡ next_due (repeat_of self.repeat) self.first start }
    {
        match self.repeat.kind {
            Kind::Once => (start == self.first).then_some(start),
            Kind::Daily => Some(self.next_daily(start)),
            _ => self.next_weekly(start),
        }
    }

    // Every so many days, with no last day.
    fn next_daily(self, start: u64) -> u64
        requires { (self.first ≤ start) × (start ≤ day_limit) }
        ensures { result ≡ next_daily self.repeat.step self.first start }
    {
        match (start - self.first) % self.repeat.step {
            0 => start,
            past => start + (self.repeat.step - past),
        }
    }

    // How many days it has fallen on, from its first day up to a day.
    #[tactic(auto, using(crate::proofs::Counting::fallen_is))]
    pub(crate) fn count(self, day: u64) -> u64
        ensures { result ≡ fallen (repeat_of self.repeat) self.first day }
    {
        let Some(days) = day.min(self.repeat.last).checked_sub(self.first) else {
            return 0;
        };
        match self.repeat.kind {
            Kind::Once => 1,
            Kind::Daily => days / self.repeat.step + 1,
            _ => self.often_weekly(days),
        }
    }

    // A day on which it falls is one of its number of times.
    pub(crate) fn in_times(self, day: u64) -> bool
        ensures { result ≡ in_times (repeat_of self.repeat) self.first day }
    {
        self.repeat.times == 0 || self.count(day) <= self.repeat.times
    }
}
