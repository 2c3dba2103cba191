//! The search for a spurious window.

ghost use Rattle.std.specs.Prelude.{◌≡◌, ◌^◌, ◌<◌, ◌≤◌, ◌+◌, ◌-◌, ◌++◌, ◌∷◌, [], ℕ, suc, false, map, take, length};
ghost use Rattle.std.specs.Prelude.{IfOk, IfErr, IfSome, IfNone};
ghost use Rattle.std.specs.Prelude.{length as count_of};
ghost use Rattle.std.specs.List.{AllByRecursion};
ghost use Rattle.base_library.specs.Numbers.{IsDistinct};
ghost use Rattle.tsl_terms.specs.WindowTree.{window_tree};
ghost use Rattle.letter_space.specs.SpaceView.{space_tree};
ghost use Rattle.machines.specs.MachineView.{environment_tree};
ghost use Rattle.machines.specs.Moves.{EnvironmentFits};
ghost use Rattle.branch_finder.specs.declared.branch_error.BranchError.TheVariants.{Branches};
ghost use Rattle.branch_finder.specs.declared.limits.TheConstants.{MOST_BRANCHES};
ghost use Rattle.branch_finder.specs.Finding.{AreControlled, HasNoSpuriousWindow, IsFoundWindow, branch_count};
ghost use Rattle.branch_finder.specs.internal.Sets.{first_of, numbered_set};
ghost use Rattle.branch_finder.specs.internal.Planes.{ComesFrom};
ghost use Rattle.branch_finder.specs.internal.Prints.{ArePrintsWithin};
ghost use Rattle.branch_finder.specs.internal.Looking.{IsSearch, IsPath, IsWalk};
ghost use Rattle.branch_finder.specs.internal.Values.{LooksSeen};
ghost use Rattle.branch_finder.specs.internal.Finding.{IsFoundOf, HasNoneBy, HasNoneOn, HasNoneOf};

use crate::arguments::arguments_of;
use crate::branch_error::BranchError;
use crate::counting::{are_too_many, count_paths, path_with};
use crate::differing::may_be_spurious;
use crate::linking::links_of;
use crate::listing::{equalities_along, updates_along};
use crate::looking::{Look, Search, Walk};
use crate::moving::{plane_of, states_after};
use crate::prints::{equality_bits, prints_of};
use crate::relevance::relevant_cells;
use crate::sets::{sets_of, vector_masks};
use crate::thinning::needed_window;
use crate::values::looks_seen;
use crate::visiting::visited_states;
use crate::windows::window_seen;
use base_library::NoMemory;
use lane_planes::any_bit;
use letter_space::Space;
use machines::Environment;
use std::alloc::Global;
use term_congruence::classes_along;
use tsl_terms::Window;

/// The first vectors that have the sets with these numbers.
fn first_vectors(alloc: Global, firsts: &[u32], numbers: &[u32]) -> Result<Vec<u32>, NoMemory>
    requires { AllByRecursion (λ n. n < length firsts.now) numbers.now }
    ensures { IfOk result (λ path. path.items ≡ map (first_of firsts.now) numbers.now) }
{
    let mut path = Vec::with_capacity(alloc, numbers.len())?;
    for number in numbers {
        path.push(firsts[*number as usize])?;
    }
    Ok(path)
}

/// Whether a pair may be seen on a path: not where the space has no equalities and none looks seen.
fn may_be_seen(alloc: Global, walk: &Walk) -> Result<bool, NoMemory>
    requires walk { IsWalk walk.now }
    ensures { IfOk result (λ may. may ≡ false → (walk.now.search.mask ≡ 0)
        × ((left_at left right : ℕ) → LooksSeen (space_tree walk.now.search.space.now) (environment_tree walk.now.search.environment.now)
        walk.now.search.cells.now walk.now.search.mask walk.now.path.now walk.now.prints.now
        (record { left_at = left_at; left = left; right = right }) → ⊥)) }
{
    if walk.search.mask != 0 {
        return Ok(true);
    }
    Ok(looks_seen(alloc, walk)?)
}

/// A congruent window that is spurious along a path of sets by states with these prints, with what it needs, if
/// there is one. The path is that of the first vectors that have the sets.
fn window_along(
    alloc: Global,
    search: &Search,
    numbers: &[u32],
    path: &[u32],
    prints: &[u32],
) -> Result<Option<Window>, NoMemory>
    requires search { IsSearch search.now }
    requires path { IsPath search.now numbers.now path.now }
    requires prints { ArePrintsWithin search.now.mask prints.now }
    requires each { length prints.now ≡ suc (length path.now) }
    ensures found { IfOk result (λ found. IfSome found (λ w. IsFoundOf (space_tree search.now.space.now)
        (environment_tree search.now.environment.now) search.now.cells.now search.now.equality (length path.now) (window_tree w))) }
    ensures none { IfOk result (λ found. IfNone found (HasNoneBy (space_tree search.now.space.now)
        (environment_tree search.now.environment.now) search.now.cells.now search.now.equality search.now.mask path.now prints.now)) }
{
    let walk = Walk {
        search: *search,
        numbers,
        path,
        prints,
    };
    if !may_be_seen(alloc, &walk)? {
        return Ok(None);
    }
    let updates = updates_along(alloc, search.space, search.cells, path)?;
    let equalities = equalities_along(alloc, search.space, prints)?;
    let table = classes_along(
        alloc,
        search.terms,
        updates.as_slice(),
        equalities.as_slice(),
        path.len() as u32,
    )?;
    let look = Look {
        walk,
        rows: table.rows.as_slice(),
    };
    match window_seen(alloc, &look, updates, equalities)? {
        Some(window) => Ok(Some(needed_window(alloc, search, window)?)),
        None => Ok(None),
    }
}

/// Whether some state is led to along the first of these sets, by states with these prints: always, where the states
/// have one print alone.
fn is_reached(
    alloc: Global,
    search: &Search,
    numbers: &[u32],
    prints: &[u32],
) -> Result<bool, NoMemory>
    requires search { IsSearch search.now }
    requires numbers { AllByRecursion (λ n. n < length search.now.firsts.now) numbers.now }
    requires some { 1 ≤ length prints.now }
    requires few { length prints.now ≤ suc (length numbers.now) }
    ensures { IfOk result (λ is. is ≡ false → (t : ℕ) → ComesFrom (space_tree search.now.space.now)
        (environment_tree search.now.environment.now) search.now.mask
        (map (numbered_set (space_tree search.now.space.now) search.now.cells.now search.now.firsts.now)
        (take (length prints.now - 1) numbers.now)) prints.now search.now.visited.now t → ⊥) }
{
    if search.prints.len() == 1 {
        return Ok(true);
    }
    let before = &numbers[..prints.len() - 1];
    let states = states_after(alloc, search, search.visited, before, prints)?;
    Ok(any_bit(states.as_slice()))
}

/// Prints with one more at the end.
fn with_print(alloc: Global, prints: &[u32], print: u32) -> Result<Vec<u32>, NoMemory>
    ensures { IfOk result (λ longer. longer.items ≡ prints.now ++ print ∷ []) }
{
    let mut longer = prints.to_vec(alloc)?;
    longer.push(print)?;
    Ok(longer)
}

/// A congruent window that is spurious along the path of these sets by states of which the first ones have these
/// prints, with what it needs, if there is one. So many prints are left to be chosen.
fn window_from(
    alloc: Global,
    search: &Search,
    numbers: &[u32],
    path: &[u32],
    prints: &[u32],
    left: u32,
) -> Result<Option<Window>, NoMemory>
    requires search { IsSearch search.now }
    requires path { IsPath search.now numbers.now path.now }
    requires prints { ArePrintsWithin search.now.mask prints.now }
    requires left { length prints.now + left ≡ suc (length path.now) }
    ensures found { IfOk result (λ found. IfSome found (λ w. IsFoundOf (space_tree search.now.space.now)
        (environment_tree search.now.environment.now) search.now.cells.now search.now.equality (length path.now) (window_tree w))) }
    ensures none { IfOk result (λ found. IfNone found (HasNoneBy (space_tree search.now.space.now)
        (environment_tree search.now.environment.now) search.now.cells.now search.now.equality search.now.mask path.now prints.now)) }
{
    if left == 0 {
        return Ok(window_along(alloc, search, numbers, path, prints)?);
    }
    for print in search.prints {
        let longer = with_print(alloc, prints, *print)?;
        if !is_reached(alloc, search, numbers, longer.as_slice())? {
            continue;
        }
        if let Some(window) = window_from(
            alloc,
            search,
            numbers,
            path,
            longer.as_slice(),
            left - 1,
        )? {
            return Ok(Some(window));
        }
    }
    Ok(None)
}

/// A congruent window that is spurious along the path of the sets with these numbers, with what it needs, if there is
/// one.
fn window_on_path(
    alloc: Global,
    search: &Search,
    numbers: &[u32],
) -> Result<Option<Window>, NoMemory>
    requires search { IsSearch search.now }
    requires numbers { AllByRecursion (λ n. n < length search.now.firsts.now) numbers.now }
    requires short { length numbers.now ≤ 3 }
    ensures found { IfOk result (λ found. IfSome found (λ w. IsFoundOf (space_tree search.now.space.now)
        (environment_tree search.now.environment.now) search.now.cells.now search.now.equality (length numbers.now) (window_tree w))) }
    ensures none { IfOk result (λ found. IfNone found (HasNoneOn (space_tree search.now.space.now)
        (environment_tree search.now.environment.now) search.now.cells.now search.now.equality
        (map (first_of search.now.firsts.now) numbers.now))) }
{
    let path = first_vectors(alloc, search.firsts, numbers)?;
    let prints = Vec::new(alloc);
    let left = numbers.len() as u32 + 1;
    let found = window_from(
        alloc,
        search,
        numbers,
        path.as_slice(),
        prints.as_slice(),
        left,
    )?;
    Ok(found)
}

/// A congruent spurious window of a length, with what it needs, if there is one.
fn window_of_length(alloc: Global, search: &Search, length: u32) -> Result<Option<Window>, NoMemory>
    requires search { IsSearch search.now }
    requires some { 1 ≤ count_of search.now.firsts.now }
    requires few { count_of search.now.firsts.now ^ length ≤ MOST_BRANCHES }
    requires short { length ≤ 3 }
    ensures found { IfOk result (λ found. IfSome found (λ w. IsFoundOf (space_tree search.now.space.now)
        (environment_tree search.now.environment.now) search.now.cells.now search.now.equality length (window_tree w))) }
    ensures none { IfOk result (λ found. IfNone found (HasNoneOf (space_tree search.now.space.now)
        (environment_tree search.now.environment.now) search.now.cells.now search.now.equality length)) }
{
    let sets = search.firsts.len() as u32;
    for number in 0..count_paths(sets, length) {
        let path = path_with(alloc, sets, length, number)?;
        if let Some(window) = window_on_path(alloc, search, &path)? {
            return Ok(Some(window));
        }
    }
    Ok(None)
}

/// A congruent spurious window of the least length within the depth, with what it needs, if there is one.
fn least_window(alloc: Global, search: &Search, depth: u32) -> Result<Option<Window>, NoMemory>
    requires search { IsSearch search.now }
    requires some { 1 ≤ length search.now.firsts.now }
    requires few { length search.now.firsts.now ^ depth ≤ MOST_BRANCHES }
    requires short { depth ≤ 3 }
    ensures found { IfOk result (λ found. IfSome found (λ w. IsFoundWindow (space_tree search.now.space.now)
        (environment_tree search.now.environment.now) search.now.cells.now search.now.equality depth (window_tree w))) }
    ensures none { IfOk result (λ found. IfNone found (HasNoSpuriousWindow (space_tree search.now.space.now)
        (environment_tree search.now.environment.now) search.now.cells.now search.now.equality depth)) }
{
    if !may_be_spurious(search) {
        return Ok(None);
    }
    for length in 0..depth + 1 {
        if let Some(window) = window_of_length(alloc, search, length)? {
            return Ok(Some(window));
        }
    }
    Ok(None)
}

/// What `find_window` answers where there is a predicate term and the branches are few.
fn window_of_cells(
    alloc: Global,
    environment: &Environment,
    space: &Space,
    cells: &[u32],
    depth: u32,
    equality: Option<u32>,
) -> Result<Option<Window>, NoMemory>
    requires fits { EnvironmentFits (space_tree space.now) (environment_tree environment.now) }
    requires short { depth ≤ 3 }
    requires some { 1 ≤ length space.now.predicates }
    requires few { branch_count (space_tree space.now) depth ≤ MOST_BRANCHES }
    ensures found { IfOk result (λ found. IfSome found (λ w.
        IsFoundWindow (space_tree space.now) (environment_tree environment.now) cells.now equality depth (window_tree w))) }
    ensures none { IfOk result (λ found. IfNone found
        (HasNoSpuriousWindow (space_tree space.now) (environment_tree environment.now) cells.now equality depth)) }
{
    let visited = visited_states(alloc, environment)?;
    let visited = plane_of(alloc, environment.states, visited.as_slice())?;
    let mask = equality_bits(space, equality);
    let prints = prints_of(alloc, environment, mask)?;
    let arguments = arguments_of(alloc, space)?;
    let masks = vector_masks(alloc, space, environment.vectors)?;
    let sets = sets_of(alloc, space, cells, environment.vectors)?;
    let links = links_of(
        alloc,
        environment,
        space,
        masks.as_slice(),
        sets.sets.as_slice(),
    )?;
    let search = Search {
        environment,
        space,
        cells,
        visited: visited.as_slice(),
        equality,
        mask,
        prints: prints.as_slice(),
        terms: arguments.terms.as_slice(),
        starts: arguments.starts.as_slice(),
        firsts: sets.firsts.as_slice(),
        links: links.as_slice(),
    };
    Ok(least_window(alloc, &search, depth)?)
}

/// A congruent window that is spurious and of the least length, at most the depth, and lists no update and no equality
/// too many, in the order of programs; or none, where no congruent window of at most this length is spurious.
/// Equalities are the probes of the handed predicate with two arguments; without one a window that is found has a left
/// probe and lists no equality. It is refused with `Branches` exactly where the square of the number of predicate terms
/// times the vectors to the depth is over 10,000,000.
pub fn find_window(
    alloc: Global,
    environment: &Environment,
    space: &Space,
    cells: &[u32],
    depth: u32,
    equality: Option<u32>,
) -> Result<Option<Window>, BranchError>
    requires fits { EnvironmentFits (space_tree space.now) (environment_tree environment.now) }
    requires controlled { AreControlled (space_tree space.now) cells.now }
    requires distinct { IsDistinct cells.now }
    requires short { depth ≤ 3 }
    ensures found { IfOk result (λ found. IfSome found (λ w.
        IsFoundWindow (space_tree space.now) (environment_tree environment.now) cells.now equality depth (window_tree w))) }
    ensures none { IfOk result (λ found. IfNone found
        (HasNoSpuriousWindow (space_tree space.now) (environment_tree environment.now) cells.now equality depth)) }
    ensures few { IfOk result (λ _. branch_count (space_tree space.now) depth ≤ MOST_BRANCHES) }
    ensures cause { IfErr result (λ e. e ≡ Branches → MOST_BRANCHES < branch_count (space_tree space.now) depth) }
{
    let predicates = space.predicates.len() as u64;
    if are_too_many(predicates, environment.vectors, depth) {
        return Err(BranchError::Branches);
    }
    if predicates == 0 {
        return Ok(None);
    }
    let relevant = relevant_cells(alloc, space, cells)?;
    Ok(window_of_cells(
        alloc,
        environment,
        space,
        relevant.as_slice(),
        depth,
        equality,
    )?)
}
