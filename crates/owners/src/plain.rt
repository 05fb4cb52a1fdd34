// Number 6 as a loop over the records.
ghost use Rattle.std.specs.Prelude.{◌≡◌};
ghost use Rattle.language.specs.Annotation.{unannotated};
ghost use Rattle.language.specs.Answers.{program};
ghost use Rattle.chains.specs.Formed.{Formed};

use chains::record_count;
use language::format;
use records::word;

// Whether no goal of the file is a create or a remove.
pub fn is_unannotated(file: &[u8]) -> bool
    requires { Formed file.now }
    ensures { result ≡ unannotated (program file.now) }
{
    for i in 1..record_count(file) {
        let kind = word(file, i, format::KIND);
        if kind == format::CREATE || kind == format::REMOVE {
            return false;
        }
    }
    true
}
