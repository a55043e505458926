// A script: the line of names, then a line for each call.
ghost use Rattle.std.specs.Prelude.{◌≡◌, true, is_ok, IfOk, IfErr};
ghost use Rattle.texts.specs.Pieces.{after};
ghost use Rattle.params.specs.Calls.{giving, carrying, calling, borrowed, said, all_said, Answers};
ghost use Rattle.params.specs.FirstFault.{by_fault_first};
ghost use Rattle.params.specs.Laws.{ReadyScript};
ghost use Rattle.params.specs.Scripts.{read_role, read_deed, read_message, read_text, read_values, read_call, read_calls, read_script, first_call};

use super::call::{Action, Call};
use std::alloc::{AllocError, Global};
use terms::failure::Failure;
use terms::role::Role;
use texts::columns::text_in;
use texts::cutting::count;
use texts::fault::{Fault, File, FileFault, LineFault};
use texts::heading::{ended, names};
use texts::words::is_word;

const NAMES: &str = "end do text";

const COLUMNS: usize = 3;
// the longest message of a tick, in bytes
const LONGEST: usize = 64;

// the line behind the last call that a script may have: 800 calls, from line 2 on
const PAST_CALLS: u16 = 802;

// Why there is no list of calls: a fault of the script, or want of memory.
pub type ScriptError = Failure<FileFault>;

fn read_role(s: &[u8]) -> Result<Role, Fault>
    ensures { result ≡ read_role s.now }
{
    match s {
        b"I" => Ok(Role::Initiator),
        b"R" => Ok(Role::Responder),
        _ => Err(Fault::WrongForm),
    }
}

// What a call does, its message still to be read.
fn read_deed(s: &[u8]) -> Result<Action<()>, Fault>
    ensures { result ≡ read_deed s.now }
{
    match s {
        b"tick" => Ok(Action::Tick(())),
        b"fetch" => Ok(Action::Fetch),
        b"stop" => Ok(Action::Stop),
        _ => Err(Fault::WrongForm),
    }
}

// The message of a tick: none for `-`, or a word.
fn read_message(s: &[u8]) -> Result<&[u8], Fault>
    ensures { giving borrowed result ≡ read_message s.now }
{
    match s {
        b"-" => Ok(&[]),
        _ if is_word(s, LONGEST) => Ok(s),
        _ => Err(Fault::WrongForm),
    }
}

// The deed with its message: a tick has one, and the others have `-` in its place.
fn read_text(deed: Action<()>, s: &[u8]) -> Result<Action<&[u8]>, Fault>
    ensures { giving (carrying borrowed) result ≡ read_text deed s.now }
{
    match (deed, s) {
        (Action::Tick(()), _) => read_message(s).map(Action::Tick),
        (Action::Fetch, b"-") => Ok(Action::Fetch),
        (Action::Stop, b"-") => Ok(Action::Stop),
        _ => Err(Fault::WrongForm),
    }
}

// The three values of a line.
fn read_values(line: &[u8]) -> Result<Call<&[u8]>, LineFault>
    ensures { giving (calling borrowed) result ≡ read_values line.now }
{
    if count(line, b' ') != COLUMNS - 1 {
        return Err(Fault::WrongCount.whole_line());
    }
    // not one function that takes the reader: it would be public and need a `requires` of its closure
    let end = read_role(text_in(line, 1)).map_err(|fault| fault.at(1))?;
    let deed = read_deed(text_in(line, 2)).map_err(|fault| fault.at(2))?;
    let action = read_text(deed, text_in(line, 3)).map_err(|fault| fault.at(3))?;
    Ok(Call { end, action })
}

// The same call, with a message of its own.
fn owned(heap: Global, call: Call<&[u8]>) -> Result<Call<Vec<u8>>, AllocError>
    ensures { IfOk result (λ c. said c ≡ calling borrowed call.entry) }
{
    let action = match call.action {
        Action::Tick(message) => Action::Tick(Vec::from_slice(heap, message)?),
        Action::Fetch => Action::Fetch,
        Action::Stop => Action::Stop,
    };
    Ok(Call {
        end: call.end,
        action,
    })
}

// The call that a text begins with, which is the given line of the script, and what stands behind it.
fn read_call(heap: Global, text: &[u8], line: u16) -> Result<(Call<Vec<u8>>, &[u8]), ScriptError>
    ensures value { Answers (λ p. said p.0) (read_call line text.now) (is_ok (read_call line text.now) ≡ true) result }
    ensures behind { IfOk result (λ p. p.1.now ≡ after 10 text.now) }
{
    let (row, rest) = ended(text).map_err(|fault| fault.on(File::Script, line))?;
    let call = read_values(row).map_err(|fault| fault.on(File::Script, line))?;
    Ok((owned(heap, call)?, rest))
}

// The calls behind the names. The lines of a script count from 1, so the first call is line 2.
fn read_calls(heap: Global, text: &[u8]) -> Result<Vec<Call<Vec<u8>>>, ScriptError>
    ensures { Answers all_said (read_calls 800 2 text.now) (is_ok (read_call 2 text.now) ≡ true) result }
{
    let mut calls = Vec::new(heap);
    let mut rest = text;
    // a loop over the numbers of the lines: they bound the script, and a fault names its own
    for line in 2..PAST_CALLS {
        if rest.is_empty() {
            return Ok(calls);
        }
        let (call, behind) = read_call(heap, rest, line)?;
        calls.push(call)?;
        rest = behind;
    }
    if !rest.is_empty() {
        let fault = Fault::WrongCount.whole_line();
        return Err(Failure::Cause(fault.on(File::Script, PAST_CALLS)));
    }
    Ok(calls)
}

// The calls of a script, in order, or its first fault; or no memory to keep them in.
pub fn read_script(heap: Global, text: &[u8]) -> Result<Vec<Call<Vec<u8>>>, ScriptError>
    ensures value { Answers all_said (read_script text.now) (is_ok (first_call text.now) ≡ true) result }
    ensures ready { IfOk result (λ v. ReadyScript (all_said v)) }
    ensures first { IfErr result (by_fault_first text.now) }
{
    let lines = names(text, NAMES).map_err(|fault| fault.on(File::Script, 1))?;
    read_calls(heap, lines)
}
