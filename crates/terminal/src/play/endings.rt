//! What the names of story files end in.

ghost use Rattle.std.specs.Prelude.{◌≡◌, map};
ghost use Rattle.terminal.specs.Extensions.{extensions};

/// What is tried after the name of a story that is the name of no file.
const EXTENSIONS: [&str; 12] = [
    "z5", "z8", "z3", "zblorb", "z4", "z7", "zlb", "blorb", "blb", "z1", "z2", "z6",
];

/// What is tried after the name of a story that is the name of no file, in this order.
pub fn extensions() -> &'static [&'static str]
    ensures { map (λ extension. extension.now) result.now ≡ extensions }
{
    &EXTENSIONS
}
