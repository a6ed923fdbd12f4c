//! Readers of the text of an expansion, set by set.
ghost use Rattle.std.specs.Prelude.{◌≡◌, ◌<◌, ◌≤◌, ◌^◌, ◌∷◌, [], IfOk, IfErr, Ok, Err};
ghost use Rattle.line_grammar.specs.Grammar.{finish, first, second};
ghost use Rattle.line_grammar.specs.Shapes as shape;
ghost use Rattle.line_grammar.specs.inside.Reading.{read_shape};
ghost use Rattle.expansion.specs.Parts.{IsUpTo};
ghost use Rattle.call_texts.specs.CallGrammar as grammar;
ghost use Rattle.call_texts.specs.CallGrammar.{perhaps};
ghost use Rattle.line_grammar.specs.Sections.{labelled, ReadsSection, ReadsForm, ReadsTail};
ghost use Rattle.call_texts.specs.CallParts.{set_text};
ghost use Rattle.call_texts.specs.inside.Expansions as inside;
ghost use Rattle.call_texts.specs.inside.Expansions.{IsSet};

use crate::fields::spelled;
use crate::line::{end, take, word};
use cursor::Cursor;
use expansion::bounds::{LAST_COURSE, LAST_ENHANCEMENT, LAST_SPEED};
use expansion::{Expansion, Part};
use line_grammar::{Left, fixed_number, further};

/// A set's number of at most so much in so many digits at the front of these bytes, and what follows it.
fn set_digits(width: usize, most: u32, bytes: &[u8]) -> Result<(Part, &[u8]), Left>
    requires width { width ≤ 8 }
    requires most { most < 10 ^ width }
    ensures lawful { IfOk result (λ parts. IsSet most parts.0) }
    ensures value { IfOk result (λ parts. read_shape (shape.fixed_number width ((0, most) ∷ [])) bytes.now
        ≡ Ok (set_text width parts.0, parts.1.now)) }
    ensures left { IfErr result (λ left. read_shape (shape.fixed_number width ((0, most) ∷ [])) bytes.now ≡ Err left) }
{
    let (number, rest) = fixed_number(width, &[(0, u64::from(most))], bytes)?;
    Ok((Part::digits(number as u32), rest))
}

/// A set's value at the front of these bytes, and what follows it.
fn set_value(width: usize, most: u32, bytes: &[u8]) -> Result<(Part, &[u8]), Left>
    requires width { width ≤ 8 }
    requires most { most < 10 ^ width }
    ensures lawful { IfOk result (λ parts. IsSet most parts.0) }
    ensures value { IfOk result (λ parts. read_shape (grammar.set_shape width most) bytes.now
        ≡ Ok (set_text width parts.0, parts.1.now)) }
    ensures left { IfErr result (λ left. read_shape (grammar.set_shape width most) bytes.now ≡ Err left) }
{
    let none = spelled(b"none", Part::none(), bytes);
    let told = set_digits(width, most, bytes);
    further(&none, &told)
}

/// Reads a set after its label.
fn set(line: &mut Cursor, label: &[u8], width: usize, most: u32) -> Result<Part, Left>
    requires width { width ≤ 8 }
    requires most { most < 10 ^ width }
    ensures lawful { IfOk result (λ set. IsSet most set) }
    ensures reads { ReadsSection (labelled label.now (grammar.set width most)) (inside.set_part width) line.old result
        line.new }
{
    word(line, label)?;
    take(line, &set_value(width, most, line.rest()))
}

/// Reads the course and the end.
fn course(bytes: &[u8]) -> Result<Part, Left>
    ensures lawful { IfOk result (λ course. IsSet LAST_COURSE course) }
    ensures reads { ReadsForm (grammar.course finish) (λ p. p) inside.course bytes.now result }
{
    let mut line = Cursor::new(bytes);
    let course = set(&mut line, b" course=", 4, LAST_COURSE)?;
    end(&line)?;
    Ok(course)
}

/// Reads the end, where there is no course.
#[tactic(auto, unfolding(line_grammar::specs::inside::Reading::read))]
fn no_course(bytes: &[u8]) -> Result<Part, Left>
    ensures lawful { IfOk result (λ course. IsUpTo LAST_COURSE course) }
    ensures reads { ReadsForm finish first inside.perhaps_course bytes.now result }
{
    end(&Cursor::new(bytes))?;
    Ok(Part::left_out())
}

/// Reads the course, perhaps, and the end.
fn perhaps_course(bytes: &[u8]) -> Result<Part, Left>
    ensures lawful { IfOk result (λ course. IsUpTo LAST_COURSE course) }
    ensures reads { ReadsForm (perhaps grammar.course finish) (λ p. p) inside.perhaps_course bytes.now result }
{
    further(&no_course(bytes), &course(bytes))
}

/// Reads the speed and what may follow it.
fn speed(bytes: &[u8]) -> Result<(Part, Part), Left>
    ensures lawful { IfOk result (λ sets. IsSet LAST_SPEED sets.0 × IsUpTo LAST_COURSE sets.1) }
    ensures reads { ReadsForm (grammar.speed (perhaps grammar.course finish)) (λ p. p) inside.speed bytes.now result }
{
    let mut line = Cursor::new(bytes);
    let speed = set(&mut line, b" speed=", 4, LAST_SPEED)?;
    let course = perhaps_course(line.rest())?;
    Ok((speed, course))
}

/// Reads what may follow the speed, where there is none.
fn no_speed(bytes: &[u8]) -> Result<(Part, Part), Left>
    ensures lawful { IfOk result (λ sets. IsUpTo LAST_SPEED sets.0 × IsUpTo LAST_COURSE sets.1) }
    ensures reads { ReadsForm (perhaps grammar.course finish) first inside.perhaps_speed bytes.now result }
{
    let course = perhaps_course(bytes)?;
    Ok((Part::left_out(), course))
}

/// Reads the speed, perhaps, and what may follow it.
fn perhaps_speed(bytes: &[u8]) -> Result<(Part, Part), Left>
    ensures lawful { IfOk result (λ sets. IsUpTo LAST_SPEED sets.0 × IsUpTo LAST_COURSE sets.1) }
    ensures reads { ReadsForm (perhaps grammar.speed (perhaps grammar.course finish)) (λ p. p) inside.perhaps_speed
        bytes.now result }
{
    further(&no_speed(bytes), &speed(bytes))
}

/// Reads an expansion that begins with its course.
fn from_course(bytes: &[u8]) -> Result<Expansion, Left>
    ensures { ReadsForm (grammar.course finish) (λ p. second (second p)) inside.sets bytes.now result }
{
    let course = course(bytes)?;
    Ok(Expansion::new(Part::left_out(), Part::left_out(), course).unwrap())
}

/// Reads an expansion that begins with its speed.
fn from_speed(bytes: &[u8]) -> Result<Expansion, Left>
    ensures { ReadsForm (grammar.speed (perhaps grammar.course finish)) (λ p. second (first p)) inside.sets bytes.now
        result }
{
    let (speed, course) = speed(bytes)?;
    Ok(Expansion::new(Part::left_out(), speed, course).unwrap())
}

/// Reads an expansion that begins with its enhanced position.
fn from_enhanced(bytes: &[u8]) -> Result<Expansion, Left>
    ensures { ReadsForm (grammar.enhanced (perhaps grammar.speed (perhaps grammar.course finish))) first inside.sets
        bytes.now result }
{
    let mut line = Cursor::new(bytes);
    let enhanced = set(&mut line, b" enh=", 8, LAST_ENHANCEMENT)?;
    let (speed, course) = perhaps_speed(line.rest())?;
    Ok(Expansion::new(enhanced, speed, course).unwrap())
}

/// Reads an expansion from its first set on.
fn sets(bytes: &[u8]) -> Result<Expansion, Left>
    ensures { ReadsForm (grammar.sets finish) (λ p. p) inside.sets bytes.now result }
{
    let behind_position = further(&from_speed(bytes), &from_course(bytes));
    further(&from_enhanced(bytes), &behind_position)
}

/// Reads an expansion.
fn expansion(bytes: &[u8]) -> Result<Option<Expansion>, Left>
    ensures { ReadsForm (grammar.expansion finish) second inside.expansion_or_end bytes.now result }
{
    let mut line = Cursor::new(bytes);
    word(&mut line, b" exp")?;
    let expansion = sets(line.rest())?;
    Ok(Some(expansion))
}

/// Reads the end, where no expansion follows.
#[tactic(auto, unfolding(line_grammar::specs::inside::Reading::read))]
fn no_expansion(bytes: &[u8]) -> Result<Option<Expansion>, Left>
    ensures { ReadsForm finish first inside.expansion_or_end bytes.now result }
{
    end(&Cursor::new(bytes))?;
    Ok(None)
}

/// Reads an expansion, perhaps, and the end.
pub fn expansion_or_end(bytes: &[u8]) -> Result<Option<Expansion>, Left>
    ensures { ReadsTail (perhaps grammar.expansion finish) inside.expansion_or_end bytes.now result }
{
    let ended = no_expansion(bytes);
    if ended.is_ok() {
        return ended;
    }
    further(&ended, &expansion(bytes))
}
