//! The program's arguments.

ghost use Rattle.std.specs.Prelude.{◌<◌, map, string_bytes};
ghost use Rattle.simplex_program.specs.Mode.{ReadsTermLength, ReadsMember, ReadsVoterMode};

use crate::decimal::{decimal, decimal_between};
use simplex_types::types::TermLength;
use std::num::NonZeroU32;

/// The most members of a network.
const MOST_MEMBERS: u64 = 1000;

/// The mode in which the program serves.
#[derive(Clone, Copy)]
pub enum Mode {
    /// One of this number of members, which signs by its key or has none. It fixes the views of a term, and how many
    /// views ahead of the current one may be voted for.
    Voter {
        members: u32,
        me: Option<u32>,
        term_length: TermLength,
        optimistic: u64,
    },
    /// A resolver with terms of this length.
    Resolver(TermLength),
}

impl Mode {
    ghost use Rattle.simplex_program.specs.Mode.{ReadsMode};

    /// Returns the mode that the arguments after the program's name ask for, if they ask for one. That is `voter`, from
    /// 1 to 1000 members, the index of one of them or `-`, a term length, and views ahead; or `resolver` and a term
    /// length. Numbers are decimal, without a sign or leading zeros; a term length is from 1 to 2^32 - 1.
    pub fn read(arguments: &[String]) -> Option<Mode>
        ensures { ReadsMode (map string_bytes arguments.now) result }
    {
        match arguments {
            [kind, members, me, term_length, optimistic] if kind.as_str() == "voter" => voter_mode(
                members.as_str(),
                me.as_str(),
                term_length.as_str(),
                optimistic.as_str(),
            ),
            [kind, term_length] if kind.as_str() == "resolver" => {
                Some(Mode::Resolver(term_length_of(term_length.as_str())?))
            }
            _ => None,
        }
    }
}

/// Returns the mode that the words after `voter` ask for.
fn voter_mode(members: &str, me: &str, term_length: &str, optimistic: &str) -> Option<Mode>
    ensures { ReadsVoterMode members.now me.now term_length.now optimistic.now result }
{
    let members = decimal_between(members, 1, MOST_MEMBERS)? as u32;
    Some(Mode::Voter {
        members,
        me: member_of(me, members)?,
        term_length: term_length_of(term_length)?,
        optimistic: decimal(optimistic)?,
    })
}

/// Returns the index of a member below `members`, or no key.
fn member_of(word: &str, members: u32) -> Option<Option<u32>>
    requires { 0 < members }
    ensures { ReadsMember word.now members result }
{
    if word == "-" {
        return Some(None);
    }
    let me = decimal_between(word, 0, members as u64 - 1)?;
    Some(Some(me as u32))
}

fn term_length_of(word: &str) -> Option<TermLength>
    ensures { ReadsTermLength word.now result }
{
    let length = decimal_between(word, 1, u32::MAX as u64)?;
    Some(TermLength::new(NonZeroU32::new(length as u32)?))
}
