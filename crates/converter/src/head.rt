// The head of a script: its shebang line and its frontmatter.
ghost use Rattle.std.specs.Prelude.{◌≡◌};
ghost use Rattle.frontmatter.specs.Parsed.{parsed};
ghost use Rattle.converter.specs.Columns.{HeadFits};
ghost use Rattle.converter.specs.Lexing.{head_ends};

use crate::progress::Head;
use frontmatter::ScriptSource;
use raw::RawSource;

// Where the head's tokens end. The source's own shebang counts only where the frontmatter has a fault.
pub(crate) fn head_of<S: RawSource>(source: &S) -> Head
    ensures value { result ≡ head_ends (parsed (S.RawSource.script source.now)) (S.RawSource.shebang source.now) }
    ensures fits { HeadFits (S.RawSource.script source.now) result }
{
    match ScriptSource::of_script(&source.script()) {
        Ok(parts) => Head {
            shebang: parts.shebang.map(|line| line.end),
            frontmatter: parts.frontmatter.map(|_| parts.content.start),
        },
        Err(_) => {
            let len = source.shebang_len();
            Head {
                shebang: (len != 0).then_some(len),
                frontmatter: None,
            }
        }
    }
}
