ghost use Rattle.std.specs.Prelude.{◌≡◌, ◌≤◌, [], ◌∷◌, codes, IfOk};
ghost use Rattle.equation.specs.Jobs.{IsJob};
ghost use Rattle.job_generator.specs.GeneratedOperations.{prod, lu, ulow, upp};
ghost use Rattle.job_generator.specs.GeneratedJobs.{statement, generated_job};

use crate::draws::Draws;
use crate::lists::{one, three, two};
use crate::operations::{lu, name, prod, solve};
use equation::{Job, OperationList, Statement, StatementList};
use field_word::Modulus;
use item_lists::ItemList;
use matrix_core::Matrix;
use operation_spec::Binding;
use std::alloc::{AllocError, Global};
use structure_rules::{NumberList, Structure};
use text_scan::NameList;

fn operations(alloc: Global) -> Result<OperationList, AllocError>
    ensures { IfOk result (λ list. list ≡ prod ∷ lu ∷ ulow ∷ upp ∷ []) }
{
    let mut list = two(alloc, prod(alloc)?, lu(alloc)?)?;
    list.push(solve(alloc, b"ulow", Structure::UnitLower)?)?;
    list.push(solve(alloc, b"upp", Structure::Upper)?)?;
    Ok(list)
}

fn names(alloc: Global) -> Result<NameList, AllocError>
    ensures { IfOk result (λ list. list ≡ codes "F" ∷ codes "S" ∷ codes "B" ∷ []) }
{
    three(
        alloc,
        name(alloc, b"F")?,
        name(alloc, b"S")?,
        name(alloc, b"B")?,
    )
}

fn statement(operation: u32, work: u32, knowns: NumberList) -> Statement
    ensures { result ≡ statement operation work knowns }
{
    Statement {
        operation,
        bind: Binding { work, knowns },
    }
}

/// `do prod S F F`, `do lu S`, `do ulow B S` and `do upp B S`, by numbers.
fn statements(alloc: Global) -> Result<StatementList, AllocError>
    ensures { IfOk result (λ list. list ≡ statement 0 1 (0 ∷ 0 ∷ []) ∷ statement 1 1 []
        ∷ statement 2 2 (1 ∷ []) ∷ statement 3 2 (1 ∷ []) ∷ []) }
{
    let product = statement(0, 1, two(alloc, 0, 0)?);
    let factorisation = statement(1, 1, ItemList::new(alloc));
    let mut list = two(alloc, product, factorisation)?;
    list.push(statement(2, 2, one(alloc, 1)?))?;
    list.push(statement(3, 2, one(alloc, 1)?))?;
    Ok(list)
}

/// The generated job of size n with the modulus m. Its matrices are F, whose diagonal has ones, S,
/// which is zero, and B; all other entries are drawn from the seed, row by row. Its statements add
/// the product of F's factors to S, factor S, and solve by these factors two triangular systems
/// with the right side B; it prints S and B. The one error is want of memory.
#[tactic(auto, unfolding(crate::specs::GeneratedJobs::generated_job))]
pub fn generate(alloc: Global, n: u32, m: Modulus, seed: u32) -> Result<Job, AllocError>
    requires { n ≤ 1024 }
    ensures job { IfOk result (λ job. job ≡ generated_job n m seed) }
    ensures valid { IfOk result IsJob }
{
    let mut draws = Draws::new(m, seed);
    let factors = draws.unit_diagonal(alloc, n)?;
    let right_side = draws.matrix(alloc, n)?;
    Ok(Job {
        modulus: m,
        operations: operations(alloc)?,
        names: names(alloc)?,
        matrices: three(alloc, factors, Matrix::zero(alloc, n, n)?, right_side)?,
        statements: statements(alloc)?,
        prints: two(alloc, 1, 2)?,
    })
}
