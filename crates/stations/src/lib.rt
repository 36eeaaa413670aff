// The records about stations. One names a station (change request E5): "A record Z⇥digit names the station for the records after it",
// "counts no change and replies `ok`". One gives a station a right on a slot (change request E6): "Station 0 sends G⇥station⇥slot⇥right
// .. and gets `ok`; it counts no change."
#![tactic(auto)]

ghost use Rattle.std.specs.Prelude.{◌≡◌, OnErr};
ghost use Rattle.desk.specs.Records.{Z};
ghost use Rattle.slots.specs.Works.{DoneByHead, work_of};
ghost use Rattle.stations.specs.Granted.{GrantedByHead};

use operations::listing;
use operations::refusals::Refusal;
use slots::{Head, Refused, Reply, STATIONS, rights};

// Z: 2, 18.
pub fn name(head: &mut Head, station: u8) -> Result<Reply, Refused>
    ensures done { DoneByHead (Z station) head.old (work_of head.new result) }
    ensures kept { OnErr result (head.new ≡ head.old) }
{
    if head.draft.is_some() {
        return Err(Refusal::WrongState.into());
    }
    if STATIONS <= station as usize {
        return Err(Refusal::StationOutside.into());
    }
    head.control = slots::named(head.control, station);
    Ok(Reply::Ok)
}

// G: 1, 2, 18, 8, 19. The station, the slot and the right by their numbers and its byte; a right above 2 is 1.
pub fn grant(head: &mut Head, station: u8, slot: u8, right: u8) -> Result<Reply, Refused>
    ensures done { GrantedByHead station slot right head.old (work_of head.new result) }
    ensures kept { OnErr result (head.new ≡ head.old) }
{
    if rights::WRITE < right {
        return Err(Refusal::NoRecord.into());
    }
    if head.draft.is_some() {
        return Err(Refusal::WrongState.into());
    }
    if STATIONS <= station as usize {
        return Err(Refusal::StationOutside.into());
    }
    if !listing::is_slot(slot) {
        return Err(Refusal::SlotOutside.into());
    }
    if head.control.station != 0 {
        return Err(Refusal::StationRefused.into());
    }
    if station == 0 {
        return Err(Refusal::StationRefused.into());
    }
    let i = slots::slot_number(slot);
    head.control = slots::given(head.control, station, i, right);
    Ok(Reply::Ok)
}
