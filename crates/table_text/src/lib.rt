// A packed table as text: its item count and sum, then a line for each item; or why it is refused.
#![tactic(auto)]

ghost use Rattle.std.specs.Prelude.{◌≡◌, ◌/◌, ◌%◌};
ghost use Rattle.definitions.specs.Ints.{bits};
ghost use Rattle.definitions.specs.Tables.{items};
ghost use Rattle.definitions.specs.TableCalls.{held};
ghost use Rattle.io.specs.Counts.{IsPrefixLen};
ghost use Rattle.format.specs.Numbers.{number};
ghost use Rattle.replay_text.specs.Answers.{refused};
ghost use Rattle.replay_text.specs.Buffer.{puts};
ghost use Rattle.table.specs.Held.{Held};
ghost use Rattle.table_text.specs.Listing.{ended, line, item_lines, heading, answer_text, listing_text};

use format::Error;
use replay_text::{put, put_byte, put_int, put_next, put_number, put_refused};

pub mod checked;

// Writes the line of a table at the front of a buffer: how many items, and the sum of their ints.
fn put_heading(out: &mut [u8], items: usize, sum: i32) -> usize
    ensures { puts (heading items sum) (record { next = 0; out = out.old }) ≡ record { next = result; out = out.new } }
{
    let end = put(out, 0, b"items");
    let end = put_next(out, end, items);
    let end = put(out, end, b" sum ");
    let end = put_int(out, end, sum);
    put_byte(out, end, b'\n')
}

// Writes the line of an item: its type, its id, and how many ints it has.
fn put_item(out: &mut [u8], at: usize, key: i32, count: usize) -> usize
    ensures { puts (line (bits key / 65536) (bits key % 65536) count) (record { next = at; out = out.old }) ≡ record { next = result; out = out.new } }
{
    let raw_type_id = format::key_to_raw_type_id(key) as usize;
    let id = format::key_to_id(key) as usize;
    let end = put_number(out, at, raw_type_id);
    let end = put_next(out, end, id);
    let end = put_next(out, end, count);
    put_byte(out, end, b'\n')
}

// Writes the lines of the n items of a table in their written order: unsigned key order.
fn put_items(out: &mut [u8], at: usize, area: &[i32], n: usize) -> usize
    requires { Held area.now n }
    ensures { puts (item_lines (items area.now)) (record { next = at; out = out.old }) ≡ record { next = result; out = out.new } }
{
    let mut end = at;
    for i in 0..n {
        let key = table::checked::key_at(area, n, i);
        let count = table::checked::data_at(area, n, i).len();
        end = put_item(out, end, key, count);
    }
    end
}

// Writes the line of a refusal at the front of a buffer.
pub fn put_refusal(out: &mut [u8], e: Error) -> usize
    ensures { puts (ended (refused (number e))) (record { next = 0; out = out.old }) ≡ record { next = result; out = out.new } }
{
    let end = put_refused(out, e);
    put_byte(out, end, b'\n')
}

// Writes the text of the table that an area holds at the front of a buffer.
fn put_table(out: &mut [u8], area: &[i32]) -> usize
    ensures { puts (answer_text (held area.now)) (record { next = 0; out = out.old }) ≡ record { next = result; out = out.new } }
{
    let Some(form) = table::checked::form(area) else {
        return put_refusal(out, Error::NotInForm);
    };
    let end = put_heading(out, form.items, table::checked::crc(area, form.items));
    put_items(out, end, area, form.items)
}

// Writes the lines for a packed table of at most 8,192 bytes, or for its refusal, at the front of out; returns where they end.
pub fn listing(src: &[u8], out: &mut [u8]) -> usize
    ensures out_value { puts (listing_text src.now) (record { next = 0; out = out.old }) ≡ record { next = result; out = out.new } }
    ensures prefix_len { IsPrefixLen result out.new }
{
    let mut area = [0i32; 16384];
    match checked::read_table(src, &mut area) {
        Ok(_) => put_table(out, &area),
        Err(e) => put_refusal(out, e),
    }
}
