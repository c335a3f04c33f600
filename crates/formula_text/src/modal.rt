// The marks and the entries of may and must.
ghost use Rattle.std.specs.Prelude.{◌≡◌};
ghost use Rattle.grammar.specs.Machine.{closer};
ghost use Rattle.formula_text.specs.Listing.{modal_entry};

use formula::entry::Entry;
use hml::line::Modality;

// The mark behind the action.
pub(crate) fn closing(modality: Modality) -> u8
    ensures { result ≡ closer modality }
{
    match modality {
        Modality::May => b'>',
        Modality::Must => b']',
    }
}

// The entry with an action and a part.
pub(crate) fn entry_of(modality: Modality, action: u8, part: u8) -> Entry
    ensures { result ≡ modal_entry modality action part }
{
    match modality {
        Modality::May => Entry::May(action, part),
        Modality::Must => Entry::Must(action, part),
    }
}
