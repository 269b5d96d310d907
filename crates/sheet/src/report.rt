// What is printed of a script.
ghost use Rattle.std.specs.Prelude.{◌≡◌, Some};
ghost use Rattle.sheet.specs.Reports.{report_of};
ghost use Rattle.sheet.specs.Texts.{parts_text, fault_text, found_text, report_text};

use frontmatter::{Failure, Fault, ScriptSource};
use shown::{After, Or};
use std::fmt;

// The length of the script, and what was found in it.
#[derive(Clone, Copy, Debug, PartialEq, Eq)]
pub struct Report {
    pub len: usize,
    pub found: Result<ScriptSource, Failure>,
}

// The lines on what was found, on the parts, and on a fault: other crates' types in this program's own words.
#[derive(Clone, Copy)]
struct Found(Result<ScriptSource, Failure>);

#[derive(Clone, Copy)]
struct Parts(ScriptSource);

#[derive(Clone, Copy)]
struct FaultLines(Fault);

impl Report {
    pub fn new(bytes: &[u8]) -> Report
        ensures { result ≡ report_of bytes.now }
    {
        Report {
            len: bytes.len(),
            found: ScriptSource::parse(bytes),
        }
    }
}

impl fmt::Display for Report {
    ghost output = { λ r. Some (report_text r.len r.found) };

    fn fmt<W: fmt::Write>(&self, f: &mut fmt::Formatter<W>) -> fmt::Result {
        let len = self.len;
        let found = Found(self.found);
        write!(f, "script       {len} bytes\n{found}")
    }
}

impl fmt::Display for Found {
    ghost output = { λ x. Some (found_text x.0) };

    fn fmt<W: fmt::Write>(&self, f: &mut fmt::Formatter<W>) -> fmt::Result {
        match self.0 {
            Ok(source) => Parts(source).fmt(f),
            Err(Failure::Faulty(fault)) => FaultLines(fault).fmt(f),
            Err(Failure::Refused(why)) => {
                let number = why.number();
                write!(f, "refused      {number}: {why}")
            }
        }
    }
}

impl fmt::Display for Parts {
    ghost output = { λ x. Some (parts_text x.0) };

    fn fmt<W: fmt::Write>(&self, f: &mut fmt::Formatter<W>) -> fmt::Result {
        let shebang = Or(self.0.shebang, "none");
        let fence = Or(self.0.open, "none");
        let info = Or(self.0.info, "none");
        let frontmatter = Or(self.0.frontmatter, "none");
        let close = Or(self.0.close, "none");
        let content = self.0.content;
        write!(
            f,
            "shebang      {shebang}\n\
             fence        {fence}\n\
             info         {info}\n\
             frontmatter  {frontmatter}\n\
             close        {close}\n\
             content      {content}"
        )
    }
}

impl fmt::Display for FaultLines {
    ghost output = { λ x. Some (fault_text x.0) };

    fn fmt<W: fmt::Write>(&self, f: &mut fmt::Formatter<W>) -> fmt::Result {
        let Fault {
            kind,
            primary,
            open,
            close,
        } = self.0;
        let letter = kind.letter();
        let close = After("\nclose        ", close);
        write!(
            f,
            "fault        {letter}: {kind}\n\
             at           {primary}\n\
             fence        {open}{close}"
        )
    }
}
