// Which question is asked, by the program's last argument; none by a name that is no question's.
ghost use Rattle.std.specs.Prelude.{◌≡◌};
ghost use Rattle.survey.specs.Options.{question_chosen};

use name_bytes::{name_of, same_name};
use surveying::asking::Question;

pub(crate) fn chosen(option: &[u8]) -> Option<Question>
    ensures { result ≡ question_chosen option.now }
{
    let name = name_of(option);
    if same_name(name, name_of(b"identify")) {
        return Some(Question::Identify);
    }
    if same_name(name, name_of(b"extract")) {
        return Some(Question::Extract);
    }
    if same_name(name, name_of(b"engineer")) {
        return Some(Question::Engineer);
    }
    None
}
