//! What a formula's text may be, and the reader of a text that is there as a whole.

ghost use Rattle.std.specs.Prelude.{◌≡◌, ◌+◌, ◌^◌, ◌<◌, ℕ, Err, IfOk, length};
ghost use Rattle.cnf_reader.specs.CnfText.{cnf_answer, is_cnf, form_at, too_many_variables, too_many_clauses};

use crate::CnfReader;
use base_library::NoMemory;
use clause_core::Cnf;
use std::alloc::Global;
use thiserror::Error;
use tsl_io::TakePieces;

/// Why a text is no formula.
#[derive(Debug, Drop, Error)]
pub enum CnfError {
    /// On this line, counted from 1, is the first wrong word. Where a clause or the header is
    /// missing, it is the line after the last.
    #[error("line {0} is malformed")]
    Form(u32),
    /// The header tells more than 1,048,576 variables.
    #[error("there are more than 1048576 variables")]
    Variables,
    /// The header tells more than 2,000,000 clauses.
    #[error("there are more than 2000000 clauses")]
    Clauses,
    /// Memory ran out.
    #[error("out of memory")]
    NoMemory,
}

impl From<NoMemory> for CnfError {
    ghost use Rattle.std.specs.Prelude.{◌≡◌};
    ghost use Rattle.cnf_reader.specs.declared.dimacs.CnfError.TheVariants.{NoMemory as Exhausted};

    ghost from_gives = { λ _ e. e ≡ Exhausted };

    fn from(_error: NoMemory) -> CnfError {
        CnfError::NoMemory
    }
}

/// The formula that a text in the DIMACS form tells. Lines that begin with `c` are comments. The first other
/// line is `p cnf V C`; after it come C clauses, over any lines, of whole numbers from -V to V, each ended by
/// 0. A number has 1 to 18 digits. `Form` goes before `Variables`, and that before `Clauses`.
pub fn read_dimacs(alloc: Global, text: &[u8]) -> Result<Cnf, CnfError>
    requires { length text.now + 1 < 2 ^ 32 }
    ensures ok { IfOk result (λ cnf. cnf_answer text.now ≡ is_cnf cnf.variables cnf.clauses) }
    ensures form { (line : ℕ) → result ≡ Err (CnfError.Form line) → cnf_answer text.now ≡ form_at line }
    ensures variables { result ≡ Err CnfError.Variables → cnf_answer text.now ≡ too_many_variables }
    ensures clauses { result ≡ Err CnfError.Clauses → cnf_answer text.now ≡ too_many_clauses }
{
    let mut reader = CnfReader::new(alloc)?;
    reader.take_piece(text)?;
    reader.finish()
}
