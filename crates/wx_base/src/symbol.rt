ghost use Rattle.std.specs.Prelude.{◌≡◌, ◌↔◌, Any, IsSome};
ghost use Rattle.wx_base.specs.Symbols.{first_value, has_global_name, has_name, symbol_value};

use wx_text::Text;

/// A symbol of an executable: a name for a value, mostly an address.
#[derive(Debug, Drop)]
pub struct Symbol {
    /// The name, as the string table has it, without the zero behind it.
    pub name: Text,
    /// The value, mostly an address.
    pub value: u32,
    /// Whether the symbol is seen from other files (global or weak), not in its own file alone.
    pub global: bool,
}

/// The value that `name` stands for: that of the first global symbol of that name, else that of
/// the first symbol of that name. `None` exactly where no symbol has the name.
///
/// Linear in the symbols and in the bytes of their names.
pub fn find_symbol(symbols: &[Symbol], name: &[u8]) -> Option<u32>
    ensures value { result ≡ symbol_value symbols.now name.now }
    ensures found { IsSome result ↔ Any (λ s. s.name ≡ name.now) symbols.now }
{
    match first_global(symbols, name) {
        Some(value) => Some(value),
        None => first_named(symbols, name),
    }
}

// The value of the first symbol of this name that is seen from other files.
fn first_global(symbols: &[Symbol], name: &[u8]) -> Option<u32>
    ensures { result ≡ first_value (has_global_name name.now) symbols.now }
{
    symbols
        .iter()
        .find(|s| s.global && s.name.as_bytes() == name)
        .map(|s| s.value)
}

// The value of the first symbol of this name.
fn first_named(symbols: &[Symbol], name: &[u8]) -> Option<u32>
    ensures { result ≡ first_value (has_name name.now) symbols.now }
{
    symbols
        .iter()
        .find(|s| s.name.as_bytes() == name)
        .map(|s| s.value)
}
