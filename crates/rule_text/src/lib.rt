// The rule that prints, as a line of text: the winner's key and action, that there is none, or why the table is refused.
#![tactic(auto)]

ghost use Rattle.std.specs.Prelude.{◌≡◌};
ghost use Rattle.io.specs.Counts.{IsPrefixLen};
ghost use Rattle.replay_text.specs.Buffer.{puts};
ghost use Rattle.rules.specs.Answers.{won};
ghost use Rattle.rule_text.specs.RuleLine.{winner_text, won_text, rule_line};

use format::Error;
use replay_text::{put, put_byte, put_int};
use rules::Won;
use table_text::put_refusal;

pub mod arguments;

// Writes the line of a winner at the front of a buffer: its key, then its action.
fn put_winner(out: &mut [u8], key: i32, action: i32) -> usize
    ensures { puts (winner_text key action) (record { next = 0; out = out.old }) ≡ record { next = result; out = out.new } }
{
    let end = put_int(out, 0, key);
    let end = put_byte(out, end, b' ');
    let end = put_int(out, end, action);
    put_byte(out, end, b'\n')
}

// Writes the line of an answer at the front of a buffer.
fn put_won(out: &mut [u8], answer: Result<Option<Won>, Error>) -> usize
    ensures { puts (won_text (won answer)) (record { next = 0; out = out.old }) ≡ record { next = result; out = out.new } }
{
    match answer {
        Ok(Some(won)) => put_winner(out, won.key, won.action),
        Ok(None) => put(out, 0, b"no rule\n"),
        Err(e) => put_refusal(out, e),
    }
}

// Writes the line for a packed table of at most 8,192 bytes, or for its refusal, at the front of out; returns where it ends.
pub fn rule_line(src: &[u8], types: &[u16], ingredient: i32, out: &mut [u8]) -> usize
    ensures out_value { puts (rule_line src.now types.now ingredient) (record { next = 0; out = out.old }) ≡ record { next = result; out = out.new } }
    ensures prefix_len { IsPrefixLen result out.new }
{
    let mut area = [0i32; 16384];
    match table_text::checked::read_table(src, &mut area) {
        Ok(_) => put_won(out, rules::winner(&area, types, ingredient)),
        Err(e) => put_refusal(out, e),
    }
}
