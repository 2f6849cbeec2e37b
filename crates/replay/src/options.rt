// How packets are shown, by the program's option; none by a name that is no option's.
ghost use Rattle.std.specs.Prelude.{◌≡◌};
ghost use Rattle.replay.specs.Options.{showing_chosen};

use name_bytes::{name_of, same_name};
use showing::stretches::Showing;

pub(crate) fn chosen(option: &[u8]) -> Option<Showing>
    ensures { result ≡ showing_chosen option.now }
{
    let name = name_of(option);
    if same_name(name, name_of(b"runs")) {
        return Some(Showing::Runs);
    }
    if same_name(name, name_of(b"last")) {
        return Some(Showing::Last);
    }
    None
}
