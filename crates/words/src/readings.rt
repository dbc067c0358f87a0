// Readings of an index that words hold.
ghost use Rattle.std.specs.Prelude.{true, ◌≡◌};
ghost use Rattle.index.specs.Lent.{slices_of};
ghost use Rattle.reading.specs.Read.{Reads};
ghost use Rattle.words.specs.IndexWords.{index_of};
ghost use Rattle.words.specs.Given.{map_ok, put, ReadsNumber};
ghost use Rattle.words.specs.Inner.Putting.{gives_number, number_in, alpha_in};

use super::answers::{number_of, put};
use super::index_words::index_from;
use index::{Refusal, Slices};
use reading::{Reading, Value};

// What is read, or why it is not.
pub fn read_value(
    words: &[u32; 12],
    slices: &Slices<'_, '_>,
    reading: Reading,
) -> Result<Value, Refusal>
    ensures { Reads (index_of words.now) (slices_of slices.now) reading result }
{
    reading::read(index_from(words), slices, reading)
}

// The number that was read; 0 for alpha. Its caller asks for a number only (`gives_number`), so no `Option` of it is needed.
fn number_in(value: Value) -> u32
    ensures { result ≡ number_in value }
{
    match value {
        Value::Number(n) => n,
        Value::Version(n) => n as u32,
        Value::Alpha(_) => 0,
    }
}

// Writes an alpha that was read; a number is not written.
pub fn put_alpha(read: Result<Value, Refusal>, value: &mut f32) -> u32
    ensures { (result, value.new) ≡ put (map_ok (alpha_in value.old) read) value.old }
{
    match read {
        Ok(Value::Alpha(a)) => {
            *value = a;
            0
        }
        Ok(Value::Number(_) | Value::Version(_)) => 0,
        Err(e) => number_of(e),
    }
}

// Reads a number and writes it.
pub fn read_number(
    words: &[u32; 12],
    slices: &Slices<'_, '_>,
    reading: Reading,
    value: &mut u32,
) -> u32
    requires { gives_number reading ≡ true }
    ensures { ReadsNumber words.now (slices_of slices.now) reading value.old value.new result }
{
    let read = read_value(words, slices, reading);
    put(read.map(number_in), value)
}
