// The line that is printed for an answer.
ghost use Rattle.std.specs.Prelude.{Some};
ghost use Rattle.answers.specs.Texts.{parts_text, fault_text, frontmatter_text, kinds_text, answer_text};

use crate::answer::{Answer, Keywords};
use frontmatter::{Failure, Fault, ScriptSource};
use questions::Refused;
use shown::{After, Or};
use std::fmt;

// Other crates' types in this program's own words.
#[derive(Clone, Copy)]
struct Parts(ScriptSource);

#[derive(Clone, Copy)]
struct FaultText(Fault);

#[derive(Clone, Copy)]
struct Frontmatter(Result<ScriptSource, Failure>);

impl fmt::Display for Parts {
    ghost output = { λ x. Some (parts_text x.0) };

    fn fmt<W: fmt::Write>(&self, f: &mut fmt::Formatter<W>) -> fmt::Result {
        let shebang = Or(self.0.shebang, "-");
        let open = Or(self.0.open, "-");
        let info = Or(self.0.info, "-");
        let frontmatter = Or(self.0.frontmatter, "-");
        let close = Or(self.0.close, "-");
        let content = self.0.content;
        write!(
            f,
            "ok shebang={shebang} open={open} info={info} \
             frontmatter={frontmatter} close={close} content={content}"
        )
    }
}

impl fmt::Display for FaultText {
    ghost output = { λ x. Some (fault_text x.0) };

    fn fmt<W: fmt::Write>(&self, f: &mut fmt::Formatter<W>) -> fmt::Result {
        let Fault {
            kind,
            primary,
            open,
            close,
        } = self.0;
        let letter = kind.letter();
        let close = After(" ", close);
        write!(f, "fault {letter} {primary} {open}{close}")
    }
}

impl fmt::Display for Frontmatter {
    ghost output = { λ x. Some (frontmatter_text x.0) };

    fn fmt<W: fmt::Write>(&self, f: &mut fmt::Formatter<W>) -> fmt::Result {
        match self.0 {
            Ok(source) => Parts(source).fmt(f),
            Err(Failure::Faulty(fault)) => FaultText(fault).fmt(f),
            Err(Failure::Refused(why)) => Refused {
                number: why.number(),
                value: why.value(),
            }
            .fmt(f),
        }
    }
}

impl fmt::Display for Keywords {
    ghost output = { λ x. Some (kinds_text x) };

    fn fmt<W: fmt::Write>(&self, f: &mut fmt::Formatter<W>) -> fmt::Result {
        let strict = Or(self.strict, "-");
        let contextual = Or(self.contextual, "-");
        write!(f, "keyword {strict} contextual {contextual}")
    }
}

impl fmt::Display for Answer {
    ghost output = { λ x. Some (answer_text x) };

    fn fmt<W: fmt::Write>(&self, f: &mut fmt::Formatter<W>) -> fmt::Result {
        match *self {
            Answer::Frontmatter(found) => Frontmatter(found).fmt(f),
            Answer::Keywords(Ok(keywords)) => keywords.fmt(f),
            Answer::Trivia(Ok(trivia)) => write!(f, "trivia {trivia}"),
            Answer::Keywords(Err(why)) | Answer::Trivia(Err(why)) => Refused {
                number: why.number(),
                value: None,
            }
            .fmt(f),
            Answer::Malformed => write!(f, "malformed"),
        }
    }
}
