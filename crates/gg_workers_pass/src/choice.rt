//! `Chosen`: which events of one machine are tried.
ghost use Rattle.std.specs.Prelude.{◌≡◌, ◌+◌, ◌-◌, ◌^◌, min, true};
ghost use Rattle.gg_workers_pass.specs.inside.Chosen.{all_chosen, none_chosen};

/// Which events of one machine are tried. Ins and outs are given by their places.
#[derive(Clone, Copy, Drop)]
pub struct Chosen {
    /// The first in that may be latched.
    pub first_in: u32,
    /// The place after the last in that may be latched.
    pub past_in: u32,
    /// The first out that may give its token.
    pub first_out: u32,
    /// The place after the last out that may give its token.
    pub past_out: u32,
    /// Whether ports are served.
    pub serves: bool,
    /// Whether the cycle is finished.
    pub finishes: bool,
}

impl Chosen {
    /// Each event.
    pub fn all() -> Chosen
        ensures { result ≡ all_chosen }
    {
        Chosen {
            first_in: 0,
            past_in: u32::MAX,
            first_out: 0,
            past_out: u32::MAX,
            serves: true,
            finishes: true,
        }
    }

    // No event.
    fn none() -> Chosen
        ensures { result ≡ none_chosen }
    {
        Chosen {
            first_in: 0,
            past_in: 0,
            first_out: 0,
            past_out: 0,
            serves: false,
            finishes: false,
        }
    }

    /// The latch of an in.
    pub fn latch(place: u32) -> Chosen
        ensures { result ≡ record none_chosen { first_in = place; past_in = min (place + 1) (2 ^ 32 - 1) } }
    {
        let mut chosen = Chosen::none();
        chosen.first_in = place;
        chosen.past_in = place.saturating_add(1);
        chosen
    }

    /// The fire of an out.
    pub fn fire(place: u32) -> Chosen
        ensures { result ≡ record none_chosen { first_out = place; past_out = min (place + 1) (2 ^ 32 - 1) } }
    {
        let mut chosen = Chosen::none();
        chosen.first_out = place;
        chosen.past_out = place.saturating_add(1);
        chosen
    }

    /// The ports.
    pub fn ports() -> Chosen
        ensures { result ≡ record none_chosen { serves = true } }
    {
        let mut chosen = Chosen::none();
        chosen.serves = true;
        chosen
    }

    /// The end of the cycle.
    pub fn end() -> Chosen
        ensures { result ≡ record none_chosen { finishes = true } }
    {
        let mut chosen = Chosen::none();
        chosen.finishes = true;
        chosen
    }
}
