//! The laws of decoding, each an `ensures` of a function that does nothing.
ghost use Rattle.std.specs.Prelude.{◌≡◌, ℕ, List, [], IsTrue, map};
ghost use Rattle.wsyntax.specs.declared.instructions.Token.{Token as Held};
ghost use Rattle.wsyntax.specs.Brackets.{closes};
ghost use Rattle.wsyntax.specs.Instructions.{Code, flat_body};
ghost use Rattle.wsyntax.specs.Modules.{ModuleShape, BodyShape, decoded_as};
ghost use Rattle.wsyntax.specs.Binary.Production.{Agrees};
ghost use Rattle.wsyntax.specs.Binary.Values.{blob, name};
ghost use Rattle.wsyntax.specs.Binary.Types.{val_type, block_type, func_type, limits, table_type, global_type};
ghost use Rattle.wsyntax.specs.Binary.Instructions.{plain_instruction};
ghost use Rattle.wsyntax.specs.Binary.Nesting.{expression};
ghost use Rattle.wsyntax.specs.Binary.Sections.{an_import, an_export, global, element, data_segment, locals, body, section};
ghost use Rattle.wsyntax.specs.Binary.Shell.{Shell, SpellsBody, Spells};

/// What is read is spelled so, and what is spelled so is read, for each production.
pub fn grammar_is_read()
    ensures blob { Agrees blob }
    ensures name { Agrees name }
    ensures val_type { Agrees val_type }
    ensures block_type { Agrees block_type }
    ensures func_type { Agrees func_type }
    ensures limits { Agrees limits }
    ensures table_type { Agrees table_type }
    ensures global_type { Agrees global_type }
    ensures plain_instruction { Agrees plain_instruction }
    ensures expression { Agrees expression }
    ensures import_ { Agrees an_import }
    ensures global { Agrees global }
    ensures export_ { Agrees an_export }
    ensures element { Agrees element }
    ensures locals { Agrees locals }
    ensures body { Agrees body }
    ensures data_segment { Agrees data_segment }
    ensures section { Agrees section }
{}

/// The tokens that an expression holds are those of one tree, the last end after them.
pub fn tokens_have_one_tree()
    ensures some { (targets : List ℕ) (tokens : List Held) → IsTrue (closes [] tokens)
        → (code : Code) × (map (decoded_as targets) tokens ≡ flat_body code) }
    ensures one { (c d : Code) → flat_body c ≡ flat_body d → c ≡ d }
{}

/// Bytes spell one body at most.
pub fn bodies_are_determined()
    ensures { (bytes : List ℕ) (b d : BodyShape) → SpellsBody bytes b → SpellsBody bytes d → b ≡ d }
{}

/// Bytes spell one module at most, its bodies left as bytes, also where these spell none.
pub fn shells_are_determined()
    ensures { (bytes : List ℕ) (m n : ModuleShape) → Shell bytes m → Shell bytes n → m ≡ n }
{}

/// Bytes spell one module at most, and each of its bodies is one.
pub fn modules_are_determined()
    ensures { (bytes : List ℕ) (m n : ModuleShape) (bs ds : List BodyShape) → Spells bytes m bs → Spells bytes n ds
        → (m ≡ n) × (bs ≡ ds) }
{}
