// Bytes that only go on with the record that is begun.
ghost use Rattle.std.specs.Prelude.{◌≡◌, ◌≤◌, ◌+◌, ◌++◌, true, length, map, take, vec_len, vec_capacity};
ghost use Rattle.std.specs.List.{list_all};
ghost use Rattle.mini_forms.specs.Lines.{is_simple};
ghost use Rattle.mini_forms.specs.Page.{code_of as page_code};

use crate::page::code_of;

// Whether a byte is a character by itself, and ends no line.
fn is_simple(byte: u8) -> bool
    ensures { result ≡ is_simple byte }
{
    byte != b'\n' && byte != b'\r' && byte < 0x80
}

/// How many bytes at the front are characters by themselves.
pub fn simple_front(bytes: &[u8]) -> usize
    ensures few { result ≤ length bytes.now }
    ensures simple { list_all is_simple (take result bytes.now) ≡ true }
{
    for (count, byte) in bytes.iter().enumerate() {
        if !is_simple(*byte) {
            return count;
        }
    }
    bytes.len()
}

/// Appends the codes of characters that are a byte each. There is room for them.
pub fn put_codes(into: &mut Vec<u8>, bytes: &[u8])
    requires { vec_len into.old + length bytes.now ≤ vec_capacity into.old }
    ensures codes { into.new.items ≡ into.old.items ++ map page_code bytes.now }
    ensures capacity { vec_capacity into.old ≤ vec_capacity into.new }
{
    for byte in bytes {
        into.push_reserved(code_of(*byte));
    }
}
