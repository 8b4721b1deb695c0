//! Operations by their words.
ghost use Rattle.std.specs.Prelude.{◌≡◌, IfSome, option_map};
ghost use Rattle.tz_script.specs.FirstWord.{first, ends};
ghost use Rattle.tz_script.specs.Keyword.{keyword_of};
ghost use Rattle.tz_script.specs.OpWords.{op_of, keyword_first, hold_op, drop_op, info_op, local_op, sys_op, scan_op, clock_op, reload_op, erase_op};
ghost use Rattle.tz_script.specs.Size.{IsSized};
ghost use Rattle.tz_script.specs.Words.{script_words};

use crate::keyword::Keyword;
use crate::limit::{LAST_SOURCE, LONGEST_STEP, MOST_SCANNED};
use crate::operand::{choice, conversion, counted, hold_name, local, pick, signed, zone_name};
use crate::operation::Op;
use crate::words::next_word;

/// The operation, where no word is left.
fn ends(op: Op, text: &[u8]) -> Option<Op>
    ensures value { result ≡ ends op (script_words text.now) }
    ensures sized { IsSized op → IfSome result IsSized }
{
    match next_word(text) {
        Some(_) => None,
        None => Some(op),
    }
}

/// The keyword that the next word is, and what follows it.
pub fn keyword(text: &[u8]) -> Option<(Keyword, &[u8])>
    ensures { option_map (λ cut. (cut.0, script_words cut.1.now)) result ≡ keyword_first (script_words text.now) }
{
    let (word, rest) = next_word(text)?;
    Some((Keyword::from_word(word)?, rest))
}

#[tactic(auto, unfolding(crate::specs::OpWords::hold_op))]
fn hold(text: &[u8]) -> Option<Op>
    ensures value { result ≡ hold_op (script_words text.now) }
    ensures sized { IfSome result IsSized }
{
    let (name, rest) = hold_name(text)?;
    ends(Op::Hold(name), rest)
}

#[tactic(auto, unfolding(crate::specs::OpWords::drop_op))]
fn drop(text: &[u8]) -> Option<Op>
    ensures value { result ≡ drop_op (script_words text.now) }
    ensures sized { IfSome result IsSized }
{
    let (name, rest) = hold_name(text)?;
    ends(Op::Drop(name), rest)
}

#[tactic(auto, unfolding(crate::specs::OpWords::info_op))]
fn info(text: &[u8]) -> Option<Op>
    ensures value { result ≡ info_op (script_words text.now) }
    ensures sized { IfSome result IsSized }
{
    let (v, rest) = pick(text)?;
    let (zone, rest) = zone_name(rest)?;
    let (t, rest) = signed(rest)?;
    ends(Op::Info { v, zone, t }, rest)
}

#[tactic(auto, unfolding(crate::specs::OpWords::local_op))]
fn local_time(text: &[u8]) -> Option<Op>
    ensures value { result ≡ local_op (script_words text.now) }
    ensures sized { IfSome result IsSized }
{
    let (v, rest) = pick(text)?;
    let (zone, rest) = zone_name(rest)?;
    let (l, rest) = local(rest)?;
    ends(Op::Local { v, zone, l }, rest)
}

#[tactic(auto, unfolding(crate::specs::OpWords::sys_op))]
fn sys(text: &[u8]) -> Option<Op>
    ensures value { result ≡ sys_op (script_words text.now) }
    ensures sized { IfSome result IsSized }
{
    let (v, rest) = pick(text)?;
    let (zone, rest) = zone_name(rest)?;
    let (l, rest) = local(rest)?;
    let (choose, rest) = choice(rest)?;
    ends(Op::Sys { v, zone, l, choose }, rest)
}

#[tactic(auto, unfolding(crate::specs::OpWords::scan_op))]
fn scan(text: &[u8]) -> Option<Op>
    ensures value { result ≡ scan_op (script_words text.now) }
    ensures sized { IfSome result IsSized }
{
    let (v, rest) = pick(text)?;
    let (zone, rest) = zone_name(rest)?;
    let (from, rest) = signed(rest)?;
    let (step, rest) = counted(rest, 1, LONGEST_STEP)?;
    let (count, rest) = counted(rest, 1, MOST_SCANNED)?;
    let op = Op::Scan {
        v,
        zone,
        from,
        step,
        count,
    };
    ends(op, rest)
}

#[tactic(auto, unfolding(crate::specs::OpWords::clock_op))]
fn clock(text: &[u8]) -> Option<Op>
    ensures value { result ≡ clock_op (script_words text.now) }
    ensures sized { IfSome result IsSized }
{
    let (v, rest) = pick(text)?;
    let (conv, rest) = conversion(rest)?;
    let (x, rest) = signed(rest)?;
    ends(Op::Clock { v, conv, x }, rest)
}

#[tactic(auto, unfolding(crate::specs::OpWords::reload_op))]
fn reload(text: &[u8]) -> Option<Op>
    ensures value { result ≡ reload_op (script_words text.now) }
    ensures sized { IfSome result IsSized }
{
    let (src, rest) = counted(text, 0, LAST_SOURCE)?;
    ends(Op::Reload { src }, rest)
}

#[tactic(auto, unfolding(crate::specs::OpWords::erase_op))]
fn erase(text: &[u8]) -> Option<Op>
    ensures value { result ≡ erase_op (script_words text.now) }
    ensures sized { IfSome result IsSized }
{
    let (v, rest) = pick(text)?;
    ends(Op::Erase { v }, rest)
}

/// The operation of a keyword, by the words of its operands.
pub fn op(keyword: Keyword, text: &[u8]) -> Option<Op>
    ensures value { result ≡ op_of keyword (script_words text.now) }
    ensures sized { IfSome result IsSized }
{
    match keyword {
        Keyword::Look => ends(Op::Look, text),
        Keyword::Hold => hold(text),
        Keyword::Drop => drop(text),
        Keyword::Info => info(text),
        Keyword::Local => local_time(text),
        Keyword::Sys => sys(text),
        Keyword::Scan => scan(text),
        Keyword::Clock => clock(text),
        Keyword::Reload => reload(text),
        Keyword::Erase => erase(text),
        Keyword::List => ends(Op::List, text),
    }
}
