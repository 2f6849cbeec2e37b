// The totals in words.
use tallies::Tally;
use words::say;
use words::say::words;

fn say_count(rt: &impl Print, name: &[u8], count: usize) {
    words(rt, name);
    words(rt, b": ");
    say::number(rt, count);
    words(rt, b"\n");
}

pub(crate) fn say_totals(rt: &impl Print, t: Tally) {
    let asked = t.asked;
    say_count(rt, b"import", asked[0]);
    say_count(rt, b"row", asked[1]);
    say_count(rt, b"identify", asked[2]);
    say_count(rt, b"extract", asked[3]);
    say_count(rt, b"engineer", asked[4]);
    say_count(rt, b"step", asked[5]);
    say_count(rt, b"number", asked[6]);
    say_count(rt, b"width", asked[7]);
    say_count(rt, b"unsigned", asked[8]);
    say_count(rt, b"signed", asked[9]);
    say_count(rt, b"string", asked[10]);
    say_count(rt, b"line", asked[11]);
    say_count(rt, b"search", asked[12]);
    say_count(rt, b"index", asked[13]);
    say_count(rt, b"answers that differ", t.differ);
    say_count(rt, b"lines that can't be read", t.unread);
}
