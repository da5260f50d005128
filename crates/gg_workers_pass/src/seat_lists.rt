//! The list of all seats, by channel: the seats of some channels are taken out of it, and put back.
ghost use Rattle.std.specs.Prelude.{◌≡◌, ℕ, ◌<◌, ◌≤◌, [], length, map, Some};
ghost use Rattle.std.specs.Vec.{vec_capacity};
ghost use Rattle.gg_flat.specs.Line.{value_at};
ghost use Rattle.gg_workers_pass.specs.inside.SeatLists.{AreOnce, AllThere, RowIsThere, RowTakenOut, RowPutBack};

/// Moves the seats into a list, so that each can be taken out by its number.
pub fn wrap_all<S: Drop>(seats: Vec<S>, into: &mut Vec<Option<S>>)
    requires none { into.old.items ≡ [] }
    requires room { length seats.items ≤ vec_capacity into.old }
    ensures { into.new.items ≡ map (λ seat. Some seat) seats.items }
{
    for seat in seats {
        into.push_reserved(Some(seat));
    }
}

/// Moves the seats out of such a list, in their order.
pub fn unwrap_all<S: Drop>(seats: Vec<Option<S>>, into: &mut Vec<S>)
    requires none { into.old.items ≡ [] }
    requires room { length seats.items ≤ vec_capacity into.old }
    requires there { AllThere seats.items }
    ensures { map (λ seat. Some seat) into.new.items ≡ seats.items }
{
    for seat in seats {
        let Some(seat) = seat else { unreachable!() };
        into.push_reserved(seat);
    }
}

/// Takes the seats of these channels into a row, in their order.
pub fn take_out<S: Drop>(channels: &[u32], seats: &mut Vec<Option<S>>, row: &mut Vec<S>)
    requires once { AreOnce channels.now }
    requires there { RowIsThere channels.now seats.old.items }
    requires none { row.old.items ≡ [] }
    requires room { length channels.now ≤ vec_capacity row.old }
    ensures { RowTakenOut channels.now (length channels.now) seats.old.items seats.new.items row.new.items }
{
    for channel in channels {
        let Some(seat) = seats[*channel as usize].take() else {
            unreachable!()
        };
        row.push_reserved(seat);
    }
}

/// Puts the seats of a row back to their channels.
pub fn put_back<S: Drop>(channels: &[u32], row: Vec<S>, seats: &mut Vec<Option<S>>)
    requires once { AreOnce channels.now }
    requires long { length row.items ≡ length channels.now }
    requires within { (k : ℕ) → k < length channels.now → value_at channels.now k < length seats.old.items }
    ensures { RowPutBack channels.now (length channels.now) row.items seats.old.items seats.new.items }
{
    let mut place = 0;
    for seat in row {
        seats[channels[place] as usize] = Some(seat);
        place += 1;
    }
}
