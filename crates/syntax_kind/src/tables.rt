// The keywords as tables. No `match` on the text: it is proved byte by byte, and with all the words that takes minutes
// and leaves goals by the dozen.
ghost use Rattle.std.specs.Prelude.{◌≡◌, ◌&&◌, nat_le};
ghost use Rattle.syntax_kind.specs.Editions.{edition_number};

use crate::Edition::{self, Edition2015, Edition2018, Edition2024};
use crate::kinds;

/// The editions from the first to the last, both included.
// No `RangeInclusive`: a constant's value may not call, and `a..=b` calls `RangeInclusive::new`.
#[derive(Clone, Copy)]
pub struct Editions {
    pub first: Edition,
    pub last: Edition,
}

impl Editions {
    /// Whether the edition is one of these.
    pub fn contains(self, edition: Edition) -> bool
        ensures { result ≡ (nat_le (edition_number self.first) (edition_number edition) && nat_le (edition_number edition) (edition_number self.last)) }
    {
        self.first <= edition && edition <= self.last
    }
}

const EVERY: Editions = Editions {
    first: Edition2015,
    last: Edition2024,
};

const ONLY_2015: Editions = Editions {
    first: Edition2015,
    last: Edition2015,
};

const FROM_2018: Editions = Editions {
    first: Edition2018,
    last: Edition2024,
};

const FROM_2024: Editions = Editions {
    first: Edition2024,
    last: Edition2024,
};

/// A keyword: its text, its kind, and the editions that have it.
// Numbered fields, so that the tables have a row a line: named ones take five lines each.
#[derive(Clone, Copy)]
pub struct Keyword(pub &'static [u8], pub u16, pub Editions);

impl Keyword {
    ghost use Rattle.syntax_kind.specs.Keywords.{fits};
    ghost use Rattle.syntax_kind.specs.Tables.{entry_of};

    /// Whether `ident` is this keyword in the edition.
    pub fn is_named(&self, ident: &[u8], edition: Edition) -> bool
        ensures { result ≡ fits (entry_of self.now) ident.now (edition_number edition) }
    {
        let Keyword(text, _, editions) = *self;
        text == ident && editions.contains(edition)
    }
}

/// The strict keywords: such a text is a keyword wherever it stands.
pub const STRICT: [Keyword; 52] = [
    Keyword(b"Self", kinds::SELF_TYPE_KW, EVERY),
    Keyword(b"abstract", kinds::ABSTRACT_KW, EVERY),
    Keyword(b"as", kinds::AS_KW, EVERY),
    Keyword(b"become", kinds::BECOME_KW, EVERY),
    Keyword(b"box", kinds::BOX_KW, EVERY),
    Keyword(b"break", kinds::BREAK_KW, EVERY),
    Keyword(b"const", kinds::CONST_KW, EVERY),
    Keyword(b"continue", kinds::CONTINUE_KW, EVERY),
    Keyword(b"crate", kinds::CRATE_KW, EVERY),
    Keyword(b"do", kinds::DO_KW, EVERY),
    Keyword(b"else", kinds::ELSE_KW, EVERY),
    Keyword(b"enum", kinds::ENUM_KW, EVERY),
    Keyword(b"extern", kinds::EXTERN_KW, EVERY),
    Keyword(b"false", kinds::FALSE_KW, EVERY),
    Keyword(b"final", kinds::FINAL_KW, EVERY),
    Keyword(b"fn", kinds::FN_KW, EVERY),
    Keyword(b"for", kinds::FOR_KW, EVERY),
    Keyword(b"if", kinds::IF_KW, EVERY),
    Keyword(b"impl", kinds::IMPL_KW, EVERY),
    Keyword(b"in", kinds::IN_KW, EVERY),
    Keyword(b"let", kinds::LET_KW, EVERY),
    Keyword(b"loop", kinds::LOOP_KW, EVERY),
    Keyword(b"macro", kinds::MACRO_KW, EVERY),
    Keyword(b"match", kinds::MATCH_KW, EVERY),
    Keyword(b"mod", kinds::MOD_KW, EVERY),
    Keyword(b"move", kinds::MOVE_KW, EVERY),
    Keyword(b"mut", kinds::MUT_KW, EVERY),
    Keyword(b"override", kinds::OVERRIDE_KW, EVERY),
    Keyword(b"priv", kinds::PRIV_KW, EVERY),
    Keyword(b"pub", kinds::PUB_KW, EVERY),
    Keyword(b"ref", kinds::REF_KW, EVERY),
    Keyword(b"return", kinds::RETURN_KW, EVERY),
    Keyword(b"self", kinds::SELF_KW, EVERY),
    Keyword(b"static", kinds::STATIC_KW, EVERY),
    Keyword(b"struct", kinds::STRUCT_KW, EVERY),
    Keyword(b"super", kinds::SUPER_KW, EVERY),
    Keyword(b"trait", kinds::TRAIT_KW, EVERY),
    Keyword(b"true", kinds::TRUE_KW, EVERY),
    Keyword(b"type", kinds::TYPE_KW, EVERY),
    Keyword(b"typeof", kinds::TYPEOF_KW, EVERY),
    Keyword(b"unsafe", kinds::UNSAFE_KW, EVERY),
    Keyword(b"unsized", kinds::UNSIZED_KW, EVERY),
    Keyword(b"use", kinds::USE_KW, EVERY),
    Keyword(b"virtual", kinds::VIRTUAL_KW, EVERY),
    Keyword(b"where", kinds::WHERE_KW, EVERY),
    Keyword(b"while", kinds::WHILE_KW, EVERY),
    Keyword(b"yield", kinds::YIELD_KW, EVERY),
    Keyword(b"async", kinds::ASYNC_KW, FROM_2018),
    Keyword(b"await", kinds::AWAIT_KW, FROM_2018),
    Keyword(b"dyn", kinds::DYN_KW, FROM_2018),
    Keyword(b"gen", kinds::GEN_KW, FROM_2024),
    Keyword(b"try", kinds::TRY_KW, FROM_2018),
];

/// The contextual keywords: such a text is a keyword where the grammar asks for it, else an identifier.
pub const CONTEXTUAL: [Keyword; 38] = [
    Keyword(b"asm", kinds::ASM_KW, EVERY),
    Keyword(b"att_syntax", kinds::ATT_SYNTAX_KW, EVERY),
    Keyword(b"auto", kinds::AUTO_KW, EVERY),
    Keyword(b"bikeshed", kinds::BIKESHED_KW, EVERY),
    Keyword(b"builtin", kinds::BUILTIN_KW, EVERY),
    Keyword(b"cfg", kinds::CFG_KW, EVERY),
    Keyword(b"cfg_attr", kinds::CFG_ATTR_KW, EVERY),
    Keyword(b"clobber_abi", kinds::CLOBBER_ABI_KW, EVERY),
    Keyword(b"default", kinds::DEFAULT_KW, EVERY),
    Keyword(b"deref", kinds::DEREF_KW, EVERY),
    Keyword(b"dyn", kinds::DYN_KW, ONLY_2015),
    Keyword(b"format_args", kinds::FORMAT_ARGS_KW, EVERY),
    Keyword(b"global_asm", kinds::GLOBAL_ASM_KW, EVERY),
    Keyword(b"include_bytes", kinds::INCLUDE_BYTES_KW, EVERY),
    Keyword(b"inlateout", kinds::INLATEOUT_KW, EVERY),
    Keyword(b"inout", kinds::INOUT_KW, EVERY),
    Keyword(b"is", kinds::IS_KW, EVERY),
    Keyword(b"label", kinds::LABEL_KW, EVERY),
    Keyword(b"lateout", kinds::LATEOUT_KW, EVERY),
    Keyword(b"macro_rules", kinds::MACRO_RULES_KW, EVERY),
    Keyword(b"may_unwind", kinds::MAY_UNWIND_KW, EVERY),
    Keyword(b"naked_asm", kinds::NAKED_ASM_KW, EVERY),
    Keyword(b"nomem", kinds::NOMEM_KW, EVERY),
    Keyword(b"noreturn", kinds::NORETURN_KW, EVERY),
    Keyword(b"nostack", kinds::NOSTACK_KW, EVERY),
    Keyword(b"null", kinds::NULL_KW, EVERY),
    Keyword(b"offset_of", kinds::OFFSET_OF_KW, EVERY),
    Keyword(b"options", kinds::OPTIONS_KW, EVERY),
    Keyword(b"out", kinds::OUT_KW, EVERY),
    Keyword(b"pattern_type", kinds::PATTERN_TYPE_KW, EVERY),
    Keyword(b"preserves_flags", kinds::PRESERVES_FLAGS_KW, EVERY),
    Keyword(b"pure", kinds::PURE_KW, EVERY),
    Keyword(b"raw", kinds::RAW_KW, EVERY),
    Keyword(b"readonly", kinds::READONLY_KW, EVERY),
    Keyword(b"safe", kinds::SAFE_KW, EVERY),
    Keyword(b"sym", kinds::SYM_KW, EVERY),
    Keyword(b"union", kinds::UNION_KW, EVERY),
    Keyword(b"yeet", kinds::YEET_KW, EVERY),
];
