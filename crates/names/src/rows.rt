//! Rows of a value and its spelling, and the search among them.
ghost use Rattle.std.specs.Prelude.{◌≡◌};
ghost use Rattle.names.specs.Rows.{shown, sought};

/// The value of the first row whose spelling is the text.
pub fn find<T: Copy>(rows: &[(T, &'static str)], text: &[u8]) -> Option<T>
    ensures { result ≡ sought (shown rows.now) text.now }
{
    rows.iter()
        .find(|row| row.1.as_bytes() == text)
        .map(|row| row.0)
}
