// The path of a table's file.
ghost use Rattle.std.specs.Prelude.{◌≡◌, ◌++◌, ◌+◌, ◌≤◌, length, take, drop};
ghost use Rattle.io.specs.Counts.{IsPrefixLen};
ghost use Rattle.files.specs.Paths.{path_of, put_first};

use lines::columns::part;
use table_names::table_name;
use units::TableNumber;

// A directory's name has at most so many bytes.
const LONGEST_DIRECTORY: usize = 4096;

// Room for a directory's name and a file's.
pub const MOST_PATH: usize = 4112;

// Puts a text after the first bytes of a path, and answers where it ends.
fn append(path: &mut [u8], at: usize, text: &[u8]) -> usize
    requires { at + length text.now ≤ length path.old }
    ensures value { result ≡ at + length text.now }
    ensures path_after { path.new ≡ take at path.old ++ (text.now ++ drop (at + length text.now) path.old) }
{
    let end = at + text.len();
    path[at..end].copy_from_slice(text);
    end
}

// Puts the path of the table with this number at the start of the buffer, and answers its length. Of a directory's
// name that is too long it makes the empty path.
pub fn table_path(directory: &[u8], table: TableNumber, path: &mut [u8; MOST_PATH]) -> usize
    ensures prefix_len { IsPrefixLen result path.new }
    ensures value { result ≡ length (path_of directory.now table.0) }
    ensures path_after { path.new ≡ put_first (path_of directory.now table.0) path.old }
{
    if LONGEST_DIRECTORY < directory.len() {
        return 0;
    }
    let name = table_name(table);
    let letters = name.bytes;
    let after_directory = append(path, 0, directory);
    let after_slash = append(path, after_directory, b"/");
    let after_name = append(path, after_slash, part(&letters, 0, name.len));
    append(path, after_name, b".dat")
}
