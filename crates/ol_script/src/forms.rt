//! What a line asks for, by its actor, its verb and the words behind it.

ghost use Rattle.std.specs.Prelude.{◌≡◌};
ghost use Rattle.ol_script.specs.Forms.{archiver_form, backer_form, bare, checkpointer_form, count_of, delete_of, flusher_form, form_of, insert_of, level_and_spaces, list_of, read_of, restore_of, session_form, update_of, warmer_form};
ghost use Rattle.ol_words.specs.Words.{pieces_behind};
ghost use Rattle.ol_bytes.specs.Reading.{Gives};

use crate::pieces::{next, one, three, two};
use crate::words::{
    name_of, names_in_words, number_between, place_number, register_of, row_of, target_in_text,
};
use ol_values::{Actor, Form, Labels};

// The verbs of lines.
const BEGIN: &[u8] = b"begin";

const INSERT: &[u8] = b"insert";

const UPDATE: &[u8] = b"update";

const DELETE: &[u8] = b"delete";

const READ: &[u8] = b"read";

const LIST: &[u8] = b"list";

const COMMIT: &[u8] = b"commit";

const ROLLBACK: &[u8] = b"rollback";

const START: &[u8] = b"start";

const TURN: &[u8] = b"turn";

const END: &[u8] = b"end";

const CANCEL: &[u8] = b"cancel";

const ARCHIVE: &[u8] = b"archive";

const BACKUP: &[u8] = b"backup";

const SWITCH: &[u8] = b"switch";

const CLEAN: &[u8] = b"clean";

const CHECKPOINT: &[u8] = b"checkpoint";

const RESTORE: &[u8] = b"restore";

// A form of one word.
fn bare(form: Form, behind: Option<&[u8]>) -> Option<Form>
    ensures { Gives (λ f. f) result (bare form (pieces_behind 32 behind.entry)) }
{
    match next(b' ', behind) {
        None => Some(form),
        Some(_) => None,
    }
}

#[tactic(auto, unfolding(crate::specs::Forms::insert_of))]
fn insert_of(behind: Option<&[u8]>) -> Option<Form>
    ensures { Gives (λ f. f) result (insert_of (pieces_behind 32 behind.entry)) }
{
    let (reg, space, row) = three(b' ', behind)?;
    let reg = register_of(reg)?;
    let space = name_of(space)?;
    let row = row_of(row)?;
    Some(Form::Insert { reg, space, row })
}

#[tactic(auto, unfolding(crate::specs::Forms::update_of))]
fn update_of(behind: Option<&[u8]>) -> Option<Form>
    ensures { Gives (λ f. f) result (update_of (pieces_behind 32 behind.entry)) }
{
    let (target, row) = two(b' ', behind)?;
    let target = target_in_text(target)?;
    let row = row_of(row)?;
    Some(Form::Update { target, row })
}

#[tactic(auto, unfolding(crate::specs::Forms::delete_of))]
fn delete_of(behind: Option<&[u8]>) -> Option<Form>
    ensures { Gives (λ f. f) result (delete_of (pieces_behind 32 behind.entry)) }
{
    let target = target_in_text(one(b' ', behind)?)?;
    Some(Form::Delete { target })
}

#[tactic(auto, unfolding(crate::specs::Forms::read_of))]
fn read_of(behind: Option<&[u8]>) -> Option<Form>
    ensures { Gives (λ f. f) result (read_of (pieces_behind 32 behind.entry)) }
{
    let target = target_in_text(one(b' ', behind)?)?;
    Some(Form::Read { target })
}

#[tactic(auto, unfolding(crate::specs::Forms::list_of))]
fn list_of(behind: Option<&[u8]>) -> Option<Form>
    ensures { Gives (λ f. f) result (list_of (pieces_behind 32 behind.entry)) }
{
    let (space, page) = two(b' ', behind)?;
    let space = name_of(space)?;
    let page = place_number(page)?;
    Some(Form::List { space, page })
}

#[tactic(auto, unfolding(crate::specs::Forms::session_form))]
fn session_form(verb: &[u8], behind: Option<&[u8]>) -> Option<Form>
    ensures { Gives (λ f. f) result (session_form verb.now (pieces_behind 32 behind.entry)) }
{
    if verb == BEGIN {
        bare(Form::Begin, behind)
    } else if verb == INSERT {
        insert_of(behind)
    } else if verb == UPDATE {
        update_of(behind)
    } else if verb == DELETE {
        delete_of(behind)
    } else if verb == READ {
        read_of(behind)
    } else if verb == LIST {
        list_of(behind)
    } else if verb == COMMIT {
        bare(Form::Commit, behind)
    } else if verb == ROLLBACK {
        bare(Form::Rollback, behind)
    } else {
        None
    }
}

// The level of an archive and its spaces.
#[tactic(auto, unfolding(crate::specs::Forms::level_and_spaces))]
fn level_and_spaces(behind: Option<&[u8]>) -> Option<(u8, Labels)>
    ensures { Gives (λ p. (p.0, p.1)) result (level_and_spaces (pieces_behind 32 behind.entry)) }
{
    let (level, behind) = next(b' ', behind)?;
    let level = number_between(0, 2, level)? as u8;
    let spaces = names_in_words(behind)?;
    Some((level, spaces))
}

// A number of turns.
#[tactic(auto, unfolding(crate::specs::Forms::count_of))]
fn count_of(behind: Option<&[u8]>) -> Option<u16>
    ensures { Gives (λ n. n) result (count_of (pieces_behind 32 behind.entry)) }
{
    let count = number_between(1, 65_535, one(b' ', behind)?)?;
    Some(count as u16)
}

#[tactic(auto, unfolding(crate::specs::Forms::archiver_form))]
fn archiver_form(verb: &[u8], behind: Option<&[u8]>) -> Option<Form>
    ensures { Gives (λ f. f) result (archiver_form verb.now (pieces_behind 32 behind.entry)) }
{
    if verb == START {
        let (level, spaces) = level_and_spaces(behind)?;
        Some(Form::Start { level, spaces })
    } else if verb == TURN {
        let count = count_of(behind)?;
        Some(Form::Turn { count })
    } else if verb == END {
        bare(Form::End, behind)
    } else if verb == CANCEL {
        bare(Form::Cancel, behind)
    } else if verb == ARCHIVE {
        let (level, spaces) = level_and_spaces(behind)?;
        Some(Form::Archive { level, spaces })
    } else {
        None
    }
}

#[tactic(auto, unfolding(crate::specs::Forms::backer_form))]
fn backer_form(verb: &[u8], behind: Option<&[u8]>) -> Option<Form>
    ensures { Gives (λ f. f) result (backer_form verb.now (pieces_behind 32 behind.entry)) }
{
    if verb == BACKUP {
        let count = count_of(behind)?;
        Some(Form::Backup { count })
    } else if verb == SWITCH {
        bare(Form::Switch, behind)
    } else {
        None
    }
}

#[tactic(auto, unfolding(crate::specs::Forms::flusher_form))]
fn flusher_form(verb: &[u8], behind: Option<&[u8]>) -> Option<Form>
    ensures { Gives (λ f. f) result (flusher_form verb.now (pieces_behind 32 behind.entry)) }
{
    if verb == CLEAN {
        let count = count_of(behind)?;
        Some(Form::Clean { count })
    } else {
        None
    }
}

#[tactic(auto, unfolding(crate::specs::Forms::checkpointer_form))]
fn checkpointer_form(verb: &[u8], behind: Option<&[u8]>) -> Option<Form>
    ensures { Gives (λ f. f) result (checkpointer_form verb.now (pieces_behind 32 behind.entry)) }
{
    if verb == CHECKPOINT {
        bare(Form::Checkpoint, behind)
    } else {
        None
    }
}

#[tactic(auto, unfolding(crate::specs::Forms::restore_of))]
fn restore_of(behind: Option<&[u8]>) -> Option<Form>
    ensures { Gives (λ f. f) result (restore_of (pieces_behind 32 behind.entry)) }
{
    let space = name_of(one(b' ', behind)?)?;
    Some(Form::Restore { space })
}

#[tactic(auto, unfolding(crate::specs::Forms::warmer_form))]
fn warmer_form(verb: &[u8], behind: Option<&[u8]>) -> Option<Form>
    ensures { Gives (λ f. f) result (warmer_form verb.now (pieces_behind 32 behind.entry)) }
{
    if verb == RESTORE {
        restore_of(behind)
    } else {
        None
    }
}

/// What an actor's line asks for: a verb, and the words behind it.
#[tactic(auto, unfolding(crate::specs::Forms::form_of))]
pub(crate) fn form_of(actor: Actor, verb: &[u8], behind: Option<&[u8]>) -> Option<Form>
    ensures { Gives (λ f. f) result (form_of actor verb.now (pieces_behind 32 behind.entry)) }
{
    match actor {
        Actor::Session(_) => session_form(verb, behind),
        Actor::Archiver(_) => archiver_form(verb, behind),
        Actor::Backer => backer_form(verb, behind),
        Actor::Flusher => flusher_form(verb, behind),
        Actor::Checkpointer => checkpointer_form(verb, behind),
        Actor::Warmer => warmer_form(verb, behind),
    }
}
