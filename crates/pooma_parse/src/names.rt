//! The words that are no names.
ghost use Rattle.std.specs.Prelude.{◌≡◌, bytes_eq};
ghost use Rattle.std.specs.List.{list_any};
ghost use Rattle.pooma_parse.specs.Forms.{reductions};
ghost use Rattle.pooma_parse.specs.Reader.{is_reserved};

/// The words of the language that are no names. No form of the language has those from `script` on.
const RESERVED: [&[u8]; 41] = [
    b"layout",
    b"blocks",
    b"cuts",
    b"internal",
    b"external",
    b"brick",
    b"array",
    b"on",
    b"field",
    b"faces",
    b"constant",
    b"periodic",
    b"reflect",
    b"antireflect",
    b"extrapolate",
    b"stencil",
    b"lower",
    b"upper",
    b"scalar",
    b"print",
    b"block",
    b"repeat",
    b"end",
    b"index",
    b"where",
    b"min",
    b"max",
    b"abs",
    b"sum",
    b"all",
    b"any",
    b"count",
    b"bitand",
    b"bitor",
    b"script",
    b"when",
    b"dynamic",
    b"create",
    b"destroy",
    b"backfill",
    b"shiftup",
];

/// The words of the reductions.
const REDUCTIONS: [&[u8]; 8] = [
    b"sum", b"min", b"max", b"all", b"any", b"count", b"bitand", b"bitor",
];

/// Whether a word is that of a reduction.
pub fn is_reduction(word: &[u8]) -> bool
    ensures { result ≡ list_any (bytes_eq word.now) reductions }
{
    is_among(&REDUCTIONS, word)
}

/// Whether a word is one of the language's own, which is no name.
#[tactic(auto, unfolding(crate::specs::Reader::is_reserved))]
pub fn is_reserved(word: &[u8]) -> bool
    ensures { result ≡ is_reserved word.now }
{
    is_among(&RESERVED, word)
}

/// Whether a word is one of a list of words.
fn is_among(words: &[&[u8]], word: &[u8]) -> bool
    ensures { result ≡ list_any (λ other. bytes_eq word.now other.now) words.now }
{
    words.iter().any(|other| word == *other)
}
