//! Laws of texts: each is the contract of a function that changes nothing.
ghost use Rattle.std.specs.Prelude.{◌≡◌, ◌<◌, ◌^◌};
ghost use Rattle.rt_plain.specs.text.Texts.{trace_text};
ghost use Rattle.rt_plain.specs.runs.Runs.{events_of};
ghost use Rattle.rt_plain.specs.text.TraceRows.{StandsIn, IsTrace, CanCount, CanEnd, HasCores, events_told};
ghost use Rattle.journal.specs.Ending.{cut_of, ending};

use crate::Journal;
use rt_base::Halt;
use rt_plain::Cut;
use rt_plain::shown::know_cut;

fn know_counts(cut: Option<&Cut>)
    ensures { CanCount (cut_of cut.entry) }
{
    if let Some(cut) = cut {
        know_cut(cut);
    }
}

fn know_tick(tick: u32)
    ensures { tick < 2 ^ 32 }
{}

fn know_end(end: Option<(Halt, u32)>)
    ensures { CanEnd (ending end) }
{
    if let Some((_, tick)) = end {
        know_tick(tick);
    }
}

/// What a journal, a cut among its entries and an end hold can be written.
pub fn journals_can_be_written(journal: &Journal, cut: Option<&Cut>, end: Option<(Halt, u32)>)
    requires { StandsIn journal.now.entries (cut_of cut) }
    ensures { IsTrace journal.now.entries (cut_of cut.entry) (ending end) }
{
    journal.entries();
    know_counts(cut);
    know_end(end);
}

/// Equal texts have equal journals: where the texts of two traces are equal, so are their entries, cuts and ends. The
/// cuts stand among the entries, as `text` asks.
pub fn equal_texts_have_equal_journals(
    journal: &Journal,
    cut: Option<&Cut>,
    end: Option<(Halt, u32)>,
    other: &Journal,
    other_cut: Option<&Cut>,
    other_end: Option<(Halt, u32)>,
)
    requires cut { StandsIn journal.now.entries (cut_of cut) }
    requires other_cut { StandsIn other.now.entries (cut_of other_cut) }
    ensures { trace_text journal.now.entries (cut_of cut.entry) (ending end) ≡ trace_text other.now.entries (cut_of other_cut.entry) (ending other_end) →
        (journal.now.entries ≡ other.now.entries) × (cut_of cut.entry ≡ cut_of other_cut.entry) × (ending end ≡ ending other_end) }
{
    journals_can_be_written(journal, cut, end);
    journals_can_be_written(other, other_cut, other_end);
}

/// The events that `read_events` reads of a journal's text are those of its entries. The cut stands among the entries,
/// and has a number for each of 1 to 8 cores.
pub fn texts_tell_their_events(journal: &Journal, cut: Option<&Cut>, end: Option<(Halt, u32)>)
    requires stands { StandsIn journal.now.entries (cut_of cut) }
    requires cores { HasCores (cut_of cut) }
    ensures { events_told (trace_text journal.now.entries (cut_of cut.entry) (ending end)) ≡ events_of journal.now.entries }
{
    journals_can_be_written(journal, cut, end);
}
