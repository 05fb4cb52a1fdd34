// The checker's answer to any bytes.
ghost use Rattle.std.specs.Prelude.{◌≡◌, true};
ghost use Rattle.language.specs.Typing.{typing_ok};
ghost use Rattle.language.specs.Answers.{lowest, program, checker_number, checked};
ghost use Rattle.chains.specs.Formed.{Formed};
ghost use Rattle.checking.specs.Answer.{rule_stages};

use crate::procedures::rules_ok;
use language::Refusal;
use stages::{check_classes, check_typing};
use tables::{blank_file_table, blank_rows};

// Numbers 4, 5, 17, 7 and 8 of a file that passed number 3. The tables are made here, where the stack of number 3's walk is given back.
fn check_rules(file: &[u8]) -> Result<(), Refusal>
    requires formed { Formed file.now }
    requires file_value { typing_ok (program file.now) ≡ true }
    ensures { result ≡ lowest (rule_stages file.now) }
{
    let mut table = blank_file_table();
    let mut rows = blank_rows();
    check_classes(file, &mut table, &mut rows)?;
    if !rules_ok(file, &table, &rows) {
        return Err(Refusal::Rules);
    }
    Ok(())
}

pub fn check(file: &[u8]) -> Result<(), Refusal>
    ensures value { result ≡ checked file.now }
    ensures result_value { checker_number result ≡ checker_number (checked file.now) }
{
    check_typing(file)?;
    check_rules(file)
}
