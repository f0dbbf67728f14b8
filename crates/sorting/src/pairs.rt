// The pairs of a plan, whose ends stand in two lent rows. Each pair names two of the plan's events.
// Two rows and not one of couples: so whole rows are compared at a time where it is asked whether each pair goes to a higher number.

ghost use Rattle.sorting.specs.Rows.{PlanInRows};

use ids::PAIRS;

#[derive(Clone, Copy)]
pub struct Pairs<'a> {
    pub events: usize,
    pub count: usize,
    pub from: &'a [u8; PAIRS],
    pub to: &'a [u8; PAIRS],
    pub ghost within: { PlanInRows events count from.now to.now },
}

impl<'a> Pairs<'a> {
    ghost use Rattle.std.specs.Prelude.{◌≡◌};
    ghost use Rattle.sorting.specs.InRows.{plan_in};
    ghost use Rattle.sorting.specs.Turned.{turned};

    // The pairs with each the other way round.
    pub fn turned(&self) -> Pairs<'a>
        ensures { plan_in result ≡ turned (plan_in self.now) }
    {
        Pairs {
            events: self.events,
            count: self.count,
            from: self.to,
            to: self.from,
        }
    }
}
