// How the operators are written.
ghost use Rattle.std.specs.Prelude.{◌≡◌, ◌&&◌, ◌==◌, ℕ, bytes_eq, IsTrue, IsFalse, IsNone, IfSome};
ghost use Rattle.std.specs.List.{list_any};
ghost use Rattle.rule_text.specs.Operators.{is_operator};

/// How the operators are written: the word in front, how many plain numbers follow it, and how many arguments follow those.
pub const OPERATORS: [(&str, usize, usize); 28] = [
    ("not", 0, 1),
    ("and", 0, 2),
    ("or", 0, 2),
    ("ite", 0, 3),
    ("eq", 0, 2),
    ("bvnot", 0, 1),
    ("neg", 0, 1),
    ("add", 0, 2),
    ("sub", 0, 2),
    ("mul", 0, 2),
    ("udiv", 0, 2),
    ("urem", 0, 2),
    ("bvand", 0, 2),
    ("bvor", 0, 2),
    ("bvxor", 0, 2),
    ("shl", 0, 2),
    ("lshr", 0, 2),
    ("ashr", 0, 2),
    ("ult", 0, 2),
    ("ule", 0, 2),
    ("slt", 0, 2),
    ("sle", 0, 2),
    ("concat", 0, 2),
    ("extract", 2, 1),
    ("zext", 1, 1),
    ("sext", 1, 1),
    ("get", 0, 2),
    ("put", 0, 3),
];

fn is_among(
    operators: &[(&str, usize, usize)],
    name: &[u8],
    numbers: usize,
    arguments: usize,
) -> bool
    ensures { result ≡ list_any
        (λ op. bytes_eq op.0.now name.now && (op.1 == numbers && op.2 == arguments)) operators.now }
{
    operators.iter().any(|op| op.0.as_bytes() == name && (op.1 == numbers && op.2 == arguments))
}

// How many numbers and how many arguments the first of these operators with this name takes.
fn counts(operators: &[(&str, usize, usize)], name: &[u8]) -> Option<(usize, usize)>
    ensures some { IfSome result (λ counts.
        IsTrue (list_any (λ op. bytes_eq op.0.now name.now && (op.1 == counts.0 && op.2 == counts.1)) operators.now)) }
    ensures none { IsNone result → (numbers arguments : ℕ) →
        IsFalse (list_any (λ op. bytes_eq op.0.now name.now && (op.1 == numbers && op.2 == arguments)) operators.now) }
{
    for i in 0..operators.len() {
        let (word, numbers, arguments) = operators[i];
        if word.as_bytes() == name {
            return Some((numbers, arguments));
        }
    }
    None
}

/// How many numbers and how many arguments the operator with this name takes. It takes no memory.
pub fn operator(name: &[u8]) -> Option<(usize, usize)>
    ensures some { IfSome result (λ counts. IsTrue (is_operator name.now counts.0 counts.1)) }
    ensures none { IsNone result → (numbers arguments : ℕ) → IsFalse (is_operator name.now numbers arguments) }
{
    counts(&OPERATORS, name)
}

/// Whether an operator has this name, and takes so many numbers and so many arguments. It takes no memory.
pub fn is_operator(name: &[u8], numbers: usize, arguments: usize) -> bool
    ensures { result ≡ is_operator name.now numbers arguments }
{
    is_among(&OPERATORS, name, numbers, arguments)
}
