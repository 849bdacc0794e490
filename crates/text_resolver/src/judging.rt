//! What a file declares, and whether it uses only that.

ghost use Rattle.std.specs.Prelude.{◌≡◌, [], true, Ok, IfOk, IfErr, map};
ghost use Rattle.text_words.specs.Answers.{Gives, Fails};
ghost use Rattle.text_grammar.specs.Resolving.{tx_name, uses_known, resolved};
ghost use Rattle.text_grammar.specs.View.{view_file};
ghost use Rattle.text_resolver.specs.Texts.{texts};
ghost use Rattle.text_resolver.specs.DeclaredNames.{no_names, view_declared, declared_in, known_scope, converted_by};

use crate::names::{
    Scope, declare_conditions, declare_transactions, declare_variables, uses_known,
};
use crate::tables::declare_tables;
use indexmap::IndexSet;
use std::alloc::Global;
use text_grammar::file::RawFile;
use text_words::ReadFault;

/// The names that a file declares, by their kinds.
#[derive(Drop)]
pub(crate) struct DeclaredNames<'a> {
    pub(crate) vars: IndexSet<&'a str>,
    pub(crate) tables: IndexSet<&'a str>,
    pub(crate) txs: IndexSet<&'a str>,
}

/// Adds the names of each kind. It fails by `Name` where one of a kind comes twice.
fn declare_all<'a>(
    names: &mut DeclaredNames<'a>,
    conditions: &mut IndexSet<&'a str>,
    file: &RawFile<'a>,
) -> Result<(), ReadFault>
    requires none { view_declared names.old ≡ no_names }
    requires no_conditions { texts conditions.old.keys ≡ [] }
    ensures { Gives (λ _. view_declared names.new) result (declared_in (view_file file.now)) }
{
    declare_variables(&mut names.vars, &file.vars)?;
    declare_tables(&mut names.tables, &file.tables)?;
    declare_conditions(conditions, &file.always)?;
    declare_transactions(&mut names.txs, &file.txs)
}

/// The names of each kind, where none of a kind is declared twice.
fn declared_names<'a>(alloc: Global, file: &RawFile<'a>) -> Result<DeclaredNames<'a>, ReadFault>
    ensures { Gives view_declared result (declared_in (view_file file.now)) }
{
    let mut names = DeclaredNames {
        vars: IndexSet::new(alloc),
        tables: IndexSet::new(alloc),
        txs: IndexSet::new(alloc),
    };
    let mut conditions = IndexSet::new(alloc);
    let declared = declare_all(&mut names, &mut conditions, file);
    drop(conditions);
    declared.and(Ok(names))
}

/// Whether only declared names are used, and each as it is declared. Memory alone can fail it.
fn names_known(
    alloc: Global,
    names: &DeclaredNames<'_>,
    file: &RawFile<'_>,
) -> Result<bool, ReadFault>
    requires named { (view_declared names.now).transactions ≡ map tx_name (view_file file.now).txs }
    ensures { Gives (λ known. known) result
        (Ok (uses_known (known_scope (view_declared names.now)) (view_file file.now))) }
{
    let params = IndexSet::new(alloc);
    let outer = Scope {
        vars: &names.vars,
        tables: &names.tables,
        spans: &[],
        params: &params,
    };
    let known = uses_known(alloc, &outer, &names.txs, file);
    drop(params);
    known
}

/// The names of each kind, where each is declared once and only declared ones are used.
pub(crate) fn judged_names<'a>(
    alloc: Global,
    file: &RawFile<'a>,
) -> Result<DeclaredNames<'a>, ReadFault>
    ensures known { IfOk result (λ names. uses_known (known_scope (view_declared names)) (view_file file.now) ≡ true) }
    ensures named { IfOk result (λ names. resolved (view_file file.now)
        ≡ converted_by (view_declared names) (view_file file.now)) }
    ensures fault { IfErr result (λ fault. Fails fault (resolved (view_file file.now))) }
{
    let names = declared_names(alloc, file)?;
    if !names_known(alloc, &names, file)? {
        drop(names);
        return Err(ReadFault::Name);
    }
    Ok(names)
}
