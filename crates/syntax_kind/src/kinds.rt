// Every syntax kind as its number, in the order of the enum `SyntaxKind` of ra_ap_parser. They are numbers and no enum:
// calls take any 16-bit number and refuse what is past the last, and columns of numbers are lent.

// Marks that never stand in a finished tree.
pub const TOMBSTONE: u16 = 0;

pub const EOF: u16 = 1;

// Punctuation.
pub const DOLLAR: u16 = 2;

pub const SEMICOLON: u16 = 3;

pub const COMMA: u16 = 4;

pub const L_PAREN: u16 = 5;

pub const R_PAREN: u16 = 6;

pub const L_CURLY: u16 = 7;

pub const R_CURLY: u16 = 8;

pub const L_BRACK: u16 = 9;

pub const R_BRACK: u16 = 10;

pub const L_ANGLE: u16 = 11;

pub const R_ANGLE: u16 = 12;

pub const AT: u16 = 13;

pub const POUND: u16 = 14;

pub const TILDE: u16 = 15;

pub const QUESTION: u16 = 16;

pub const AMP: u16 = 17;

pub const PIPE: u16 = 18;

pub const PLUS: u16 = 19;

pub const STAR: u16 = 20;

pub const SLASH: u16 = 21;

pub const CARET: u16 = 22;

pub const PERCENT: u16 = 23;

pub const UNDERSCORE: u16 = 24;

pub const DOT: u16 = 25;

pub const DOT2: u16 = 26;

pub const DOT3: u16 = 27;

pub const DOT2EQ: u16 = 28;

pub const COLON: u16 = 29;

pub const COLON2: u16 = 30;

pub const EQ: u16 = 31;

pub const EQ2: u16 = 32;

pub const FAT_ARROW: u16 = 33;

pub const BANG: u16 = 34;

pub const NEQ: u16 = 35;

pub const MINUS: u16 = 36;

pub const THIN_ARROW: u16 = 37;

pub const LTEQ: u16 = 38;

pub const GTEQ: u16 = 39;

pub const PLUSEQ: u16 = 40;

pub const MINUSEQ: u16 = 41;

pub const PIPEEQ: u16 = 42;

pub const AMPEQ: u16 = 43;

pub const CARETEQ: u16 = 44;

pub const SLASHEQ: u16 = 45;

pub const STAREQ: u16 = 46;

pub const PERCENTEQ: u16 = 47;

pub const AMP2: u16 = 48;

pub const PIPE2: u16 = 49;

pub const SHL: u16 = 50;

pub const SHR: u16 = 51;

pub const SHLEQ: u16 = 52;

pub const SHREQ: u16 = 53;

// Strict keywords.
pub const SELF_TYPE_KW: u16 = 54;

pub const ABSTRACT_KW: u16 = 55;

pub const AS_KW: u16 = 56;

pub const BECOME_KW: u16 = 57;

pub const BOX_KW: u16 = 58;

pub const BREAK_KW: u16 = 59;

pub const CONST_KW: u16 = 60;

pub const CONTINUE_KW: u16 = 61;

pub const CRATE_KW: u16 = 62;

pub const DO_KW: u16 = 63;

pub const ELSE_KW: u16 = 64;

pub const ENUM_KW: u16 = 65;

pub const EXTERN_KW: u16 = 66;

pub const FALSE_KW: u16 = 67;

pub const FINAL_KW: u16 = 68;

pub const FN_KW: u16 = 69;

pub const FOR_KW: u16 = 70;

pub const IF_KW: u16 = 71;

pub const IMPL_KW: u16 = 72;

pub const IN_KW: u16 = 73;

pub const LET_KW: u16 = 74;

pub const LOOP_KW: u16 = 75;

pub const MACRO_KW: u16 = 76;

pub const MATCH_KW: u16 = 77;

pub const MOD_KW: u16 = 78;

pub const MOVE_KW: u16 = 79;

pub const MUT_KW: u16 = 80;

pub const OVERRIDE_KW: u16 = 81;

pub const PRIV_KW: u16 = 82;

pub const PUB_KW: u16 = 83;

pub const REF_KW: u16 = 84;

pub const RETURN_KW: u16 = 85;

pub const SELF_KW: u16 = 86;

pub const STATIC_KW: u16 = 87;

pub const STRUCT_KW: u16 = 88;

pub const SUPER_KW: u16 = 89;

pub const TRAIT_KW: u16 = 90;

pub const TRUE_KW: u16 = 91;

pub const TYPE_KW: u16 = 92;

pub const TYPEOF_KW: u16 = 93;

pub const UNSAFE_KW: u16 = 94;

pub const UNSIZED_KW: u16 = 95;

pub const USE_KW: u16 = 96;

pub const VIRTUAL_KW: u16 = 97;

pub const WHERE_KW: u16 = 98;

pub const WHILE_KW: u16 = 99;

pub const YIELD_KW: u16 = 100;

// Contextual keywords, and those that are strict from some edition on.
pub const ASM_KW: u16 = 101;

pub const ASYNC_KW: u16 = 102;

pub const ATT_SYNTAX_KW: u16 = 103;

pub const AUTO_KW: u16 = 104;

pub const AWAIT_KW: u16 = 105;

pub const BIKESHED_KW: u16 = 106;

pub const BUILTIN_KW: u16 = 107;

pub const CFG_ATTR_KW: u16 = 108;

pub const CFG_KW: u16 = 109;

pub const CLOBBER_ABI_KW: u16 = 110;

pub const DEFAULT_KW: u16 = 111;

pub const DEREF_KW: u16 = 112;

pub const DYN_KW: u16 = 113;

pub const FORMAT_ARGS_KW: u16 = 114;

pub const GEN_KW: u16 = 115;

pub const GLOBAL_ASM_KW: u16 = 116;

pub const INCLUDE_BYTES_KW: u16 = 117;

pub const INLATEOUT_KW: u16 = 118;

pub const INOUT_KW: u16 = 119;

pub const IS_KW: u16 = 120;

pub const LABEL_KW: u16 = 121;

pub const LATEOUT_KW: u16 = 122;

pub const MACRO_RULES_KW: u16 = 123;

pub const MAY_UNWIND_KW: u16 = 124;

pub const NAKED_ASM_KW: u16 = 125;

pub const NOMEM_KW: u16 = 126;

pub const NORETURN_KW: u16 = 127;

pub const NOSTACK_KW: u16 = 128;

pub const NULL_KW: u16 = 129;

pub const OFFSET_OF_KW: u16 = 130;

pub const OPTIONS_KW: u16 = 131;

pub const OUT_KW: u16 = 132;

pub const PATTERN_TYPE_KW: u16 = 133;

pub const PRESERVES_FLAGS_KW: u16 = 134;

pub const PURE_KW: u16 = 135;

pub const RAW_KW: u16 = 136;

pub const READONLY_KW: u16 = 137;

pub const SAFE_KW: u16 = 138;

pub const SYM_KW: u16 = 139;

pub const TRY_KW: u16 = 140;

pub const UNION_KW: u16 = 141;

pub const YEET_KW: u16 = 142;

// Literals.
pub const BYTE: u16 = 143;

pub const BYTE_STRING: u16 = 144;

pub const CHAR: u16 = 145;

pub const C_STRING: u16 = 146;

pub const FLOAT_NUMBER: u16 = 147;

pub const INT_NUMBER: u16 = 148;

pub const STRING: u16 = 149;

// Other tokens.
pub const COMMENT: u16 = 150;

pub const ERROR: u16 = 151;

pub const FRONTMATTER: u16 = 152;

pub const IDENT: u16 = 153;

pub const INNER_DOC_COMMENT: u16 = 154;

pub const LIFETIME_IDENT: u16 = 155;

pub const NEWLINE: u16 = 156;

pub const OUTER_DOC_COMMENT: u16 = 157;

pub const SHEBANG: u16 = 158;

pub const WHITESPACE: u16 = 159;

// Nodes.
pub const ABI: u16 = 160;

pub const ARG_LIST: u16 = 161;

pub const ARRAY_EXPR: u16 = 162;

pub const ARRAY_TYPE: u16 = 163;

pub const ASM_CLOBBER_ABI: u16 = 164;

pub const ASM_CONST: u16 = 165;

pub const ASM_DIR_SPEC: u16 = 166;

pub const ASM_EXPR: u16 = 167;

pub const ASM_LABEL: u16 = 168;

pub const ASM_OPERAND_EXPR: u16 = 169;

pub const ASM_OPERAND_NAMED: u16 = 170;

pub const ASM_OPTION: u16 = 171;

pub const ASM_OPTIONS: u16 = 172;

pub const ASM_REG_OPERAND: u16 = 173;

pub const ASM_REG_SPEC: u16 = 174;

pub const ASM_SYM: u16 = 175;

pub const ASSOC_ITEM_LIST: u16 = 176;

pub const ASSOC_TYPE_ARG: u16 = 177;

pub const ATTR: u16 = 178;

pub const AWAIT_EXPR: u16 = 179;

pub const BECOME_EXPR: u16 = 180;

pub const BIN_EXPR: u16 = 181;

pub const BLOCK_EXPR: u16 = 182;

pub const BOX_PAT: u16 = 183;

pub const BREAK_EXPR: u16 = 184;

pub const CALL_EXPR: u16 = 185;

pub const CAST_EXPR: u16 = 186;

pub const CFG_ATOM: u16 = 187;

pub const CFG_ATTR_META: u16 = 188;

pub const CFG_COMPOSITE: u16 = 189;

pub const CFG_META: u16 = 190;

pub const CFG_PRED_EXPR: u16 = 191;

pub const CFG_PRED_PAT: u16 = 192;

pub const CLOSURE_EXPR: u16 = 193;

pub const CONST: u16 = 194;

pub const CONST_ARG: u16 = 195;

pub const CONST_BLOCK_PAT: u16 = 196;

pub const CONST_PARAM: u16 = 197;

pub const CONTINUE_EXPR: u16 = 198;

pub const DEREF_PAT: u16 = 199;

pub const DOC_COMMENT: u16 = 200;

pub const DYN_TRAIT_TYPE: u16 = 201;

pub const ENUM: u16 = 202;

pub const EXPR_STMT: u16 = 203;

pub const EXTERN_BLOCK: u16 = 204;

pub const EXTERN_CRATE: u16 = 205;

pub const EXTERN_ITEM_LIST: u16 = 206;

pub const FIELD_EXPR: u16 = 207;

pub const FN: u16 = 208;

pub const FN_PTR_TYPE: u16 = 209;

pub const FORMAT_ARGS_ARG: u16 = 210;

pub const FORMAT_ARGS_EXPR: u16 = 211;

pub const FOR_BINDER: u16 = 212;

pub const FOR_EXPR: u16 = 213;

pub const FOR_TYPE: u16 = 214;

pub const GENERIC_ARG_LIST: u16 = 215;

pub const GENERIC_PARAM_LIST: u16 = 216;

pub const IDENT_PAT: u16 = 217;

pub const IF_EXPR: u16 = 218;

pub const IMPL: u16 = 219;

pub const IMPL_RESTRICTION: u16 = 220;

pub const IMPL_TRAIT_TYPE: u16 = 221;

pub const INCLUDE_BYTES_EXPR: u16 = 222;

pub const INDEX_EXPR: u16 = 223;

pub const INFER_TYPE: u16 = 224;

pub const ITEM_LIST: u16 = 225;

pub const KEY_VALUE_META: u16 = 226;

pub const LABEL: u16 = 227;

pub const LET_ELSE: u16 = 228;

pub const LET_EXPR: u16 = 229;

pub const LET_STMT: u16 = 230;

pub const LIFETIME: u16 = 231;

pub const LIFETIME_ARG: u16 = 232;

pub const LIFETIME_PARAM: u16 = 233;

pub const LITERAL: u16 = 234;

pub const LITERAL_PAT: u16 = 235;

pub const LOOP_EXPR: u16 = 236;

pub const MACRO_CALL: u16 = 237;

pub const MACRO_DEF: u16 = 238;

pub const MACRO_EXPR: u16 = 239;

pub const MACRO_ITEMS: u16 = 240;

pub const MACRO_PAT: u16 = 241;

pub const MACRO_RULES: u16 = 242;

pub const MACRO_STMTS: u16 = 243;

pub const MACRO_TYPE: u16 = 244;

pub const MATCH_ARM: u16 = 245;

pub const MATCH_ARM_LIST: u16 = 246;

pub const MATCH_EXPR: u16 = 247;

pub const MATCH_GUARD: u16 = 248;

pub const METHOD_CALL_EXPR: u16 = 249;

pub const MODULE: u16 = 250;

pub const MUT_RESTRICTION: u16 = 251;

pub const NAME: u16 = 252;

pub const NAME_REF: u16 = 253;

pub const NEVER_TYPE: u16 = 254;

pub const NOT_NULL: u16 = 255;

pub const OFFSET_OF_EXPR: u16 = 256;

pub const OR_PAT: u16 = 257;

pub const PARAM: u16 = 258;

pub const PARAM_LIST: u16 = 259;

pub const PARENTHESIZED_ARG_LIST: u16 = 260;

pub const PAREN_EXPR: u16 = 261;

pub const PAREN_PAT: u16 = 262;

pub const PAREN_TYPE: u16 = 263;

pub const PATH: u16 = 264;

pub const PATH_EXPR: u16 = 265;

pub const PATH_META: u16 = 266;

pub const PATH_PAT: u16 = 267;

pub const PATH_SEGMENT: u16 = 268;

pub const PATH_TYPE: u16 = 269;

pub const PATTERN_TYPE: u16 = 270;

pub const PREFIX_EXPR: u16 = 271;

pub const PTR_TYPE: u16 = 272;

pub const RANGE_EXPR: u16 = 273;

pub const RANGE_PAT: u16 = 274;

pub const RECORD_EXPR: u16 = 275;

pub const RECORD_EXPR_FIELD: u16 = 276;

pub const RECORD_EXPR_FIELD_LIST: u16 = 277;

pub const RECORD_FIELD: u16 = 278;

pub const RECORD_FIELD_LIST: u16 = 279;

pub const RECORD_PAT: u16 = 280;

pub const RECORD_PAT_FIELD: u16 = 281;

pub const RECORD_PAT_FIELD_LIST: u16 = 282;

pub const REF_EXPR: u16 = 283;

pub const REF_PAT: u16 = 284;

pub const REF_TYPE: u16 = 285;

pub const RENAME: u16 = 286;

pub const REST_PAT: u16 = 287;

pub const RETURN_EXPR: u16 = 288;

pub const RETURN_TYPE_SYNTAX: u16 = 289;

pub const RET_TYPE: u16 = 290;

pub const SELF_PARAM: u16 = 291;

pub const SLICE_PAT: u16 = 292;

pub const SLICE_TYPE: u16 = 293;

pub const SOURCE_FILE: u16 = 294;

pub const STATIC: u16 = 295;

pub const STMT_LIST: u16 = 296;

pub const STRUCT: u16 = 297;

pub const TOKEN_TREE: u16 = 298;

pub const TOKEN_TREE_META: u16 = 299;

pub const TRAIT: u16 = 300;

pub const TRY_BLOCK_MODIFIER: u16 = 301;

pub const TRY_EXPR: u16 = 302;

pub const TUPLE_EXPR: u16 = 303;

pub const TUPLE_FIELD: u16 = 304;

pub const TUPLE_FIELD_LIST: u16 = 305;

pub const TUPLE_PAT: u16 = 306;

pub const TUPLE_STRUCT_PAT: u16 = 307;

pub const TUPLE_TYPE: u16 = 308;

pub const TYPE_ALIAS: u16 = 309;

pub const TYPE_ANCHOR: u16 = 310;

pub const TYPE_ARG: u16 = 311;

pub const TYPE_BOUND: u16 = 312;

pub const TYPE_BOUND_LIST: u16 = 313;

pub const TYPE_PARAM: u16 = 314;

pub const UNDERSCORE_EXPR: u16 = 315;

pub const UNION: u16 = 316;

pub const UNSAFE_META: u16 = 317;

pub const USE: u16 = 318;

pub const USE_BOUND_GENERIC_ARGS: u16 = 319;

pub const USE_TREE: u16 = 320;

pub const USE_TREE_LIST: u16 = 321;

pub const VARIANT: u16 = 322;

pub const VARIANT_LIST: u16 = 323;

pub const VISIBILITY: u16 = 324;

pub const VISIBILITY_INNER: u16 = 325;

pub const WHERE_CLAUSE: u16 = 326;

pub const WHERE_PRED: u16 = 327;

pub const WHILE_EXPR: u16 = 328;

pub const WILDCARD_PAT: u16 = 329;

pub const YEET_EXPR: u16 = 330;

pub const YIELD_EXPR: u16 = 331;

// Past every kind of token and node.
pub const __LAST: u16 = 332;
