//! Arguments, each read from one word.
#![tactic(auto, unfolding(crate::specs::Argument::IsSpelled, crate::specs::Fault::fault_of_word))]

ghost use Rattle.std.specs.Prelude.{[], ◌∷◌};
ghost use Rattle.pc_wire.specs.Words.{words_of};
ghost use Rattle.pc_request.specs.Argument as argument;
ghost use Rattle.pc_request.specs.Fault as kind;
ghost use Rattle.pc_request.specs.Reading.{TakesWords, ReadsWord};

use crate::request::RequestFault;
use pc_base::{Name, Password, read_u32};
use pc_wire::next_word;

/// No word at all.
pub fn no_word(words: &[u8]) -> Result<(), RequestFault>
    ensures { TakesWords 0 (λ _. []) (words_of words.now) result }
{
    match next_word(words) {
        None => Ok(()),
        Some(_) => Err(RequestFault::Arguments),
    }
}

/// The only word.
pub fn one_word(words: &[u8]) -> Result<&[u8], RequestFault>
    ensures { TakesWords 1 (λ word. word.now ∷ []) (words_of words.now) result }
{
    let Some((word, others)) = next_word(words) else {
        return Err(RequestFault::Arguments);
    };
    no_word(others)?;
    Ok(word)
}

/// The only two words.
pub fn two_words(words: &[u8]) -> Result<(&[u8], &[u8]), RequestFault>
    ensures { TakesWords 2 (λ pair. pair.0.now ∷ pair.1.now ∷ []) (words_of words.now) result }
{
    let Some((first, others)) = next_word(words) else {
        return Err(RequestFault::Arguments);
    };
    let second = one_word(others)?;
    Ok((first, second))
}

/// The only three words.
pub fn three_words(words: &[u8]) -> Result<(&[u8], &[u8], &[u8]), RequestFault>
    ensures { TakesWords 3 (λ all. all.0.now ∷ all.1.now ∷ all.2.now ∷ []) (words_of words.now) result }
{
    let Some((first, others)) = next_word(words) else {
        return Err(RequestFault::Arguments);
    };
    let (second, third) = two_words(others)?;
    Ok((first, second, third))
}

/// A name.
pub fn name(word: &[u8]) -> Result<Name, RequestFault>
    ensures { ReadsWord kind.name argument.name word.now result }
{
    let Some(name) = Name::read(word) else {
        return Err(RequestFault::BadName);
    };
    Ok(name)
}

/// A password.
pub fn password(word: &[u8]) -> Result<Password, RequestFault>
    ensures { ReadsWord kind.password argument.password word.now result }
{
    let Some(password) = Password::read(word) else {
        return Err(RequestFault::Arguments);
    };
    Ok(password)
}

/// A number of 32 bits.
pub fn number(word: &[u8]) -> Result<u32, RequestFault>
    ensures { ReadsWord kind.number argument.number word.now result }
{
    let Some(number) = read_u32(word) else {
        return Err(RequestFault::Arguments);
    };
    Ok(number)
}

/// 0 or 1.
pub fn switch(word: &[u8]) -> Result<bool, RequestFault>
    ensures { ReadsWord kind.switch argument.switch word.now result }
{
    match number(word)? {
        0 => Ok(false),
        1 => Ok(true),
        _ => Err(RequestFault::Arguments),
    }
}

/// The number of a flag, at most 15.
pub fn flag(word: &[u8]) -> Result<u8, RequestFault>
    ensures { ReadsWord kind.flag argument.flag word.now result }
{
    let flag = number(word)?;
    if flag > 15 {
        return Err(RequestFault::BadFlag);
    }
    Ok(flag as u8)
}

/// How many, from 1 to 256.
pub fn count(word: &[u8]) -> Result<u32, RequestFault>
    ensures { ReadsWord kind.count argument.count word.now result }
{
    let count = number(word)?;
    if count == 0 {
        return Err(RequestFault::Arguments);
    }
    if count > 256 {
        return Err(RequestFault::Arguments);
    }
    Ok(count)
}
