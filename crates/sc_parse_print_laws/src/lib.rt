//! What is printed reads back: the bytes of a printed tree are cut into tokens that spell the tree again.
#![tactic(auto)]

ghost use Rattle.sc_parse_print_laws.specs.Prelude.{DeclsReadAs, DeclsSpell, ReadsAs, SameButLines, SaysAll};
ghost use Rattle.sc_parse_print_laws.specs.Prelude.{SectionReadsAs, SectionSpells, StmtsReadAs, StmtsSpell, WordsSpell};
ghost use Rattle.sc_parse_print_laws.specs.Prelude.{are_kept, decls_text, dense_text, expr_text, is_kept, is_kept_decl};
ghost use Rattle.sc_parse_print_laws.specs.Prelude.{kept_section, printed, section_height, section_words, stmts_text};
ghost use Rattle.sc_parse_print_laws.specs.Prelude.{symbols};
ghost use Rattle.std.specs.Prelude.{◌≡◌, ℕ, IsTrue, List};
ghost use Rattle.std.specs.List.{list_all};
ghost use Rattle.sc_ast.specs.declared.expr.ExprTree.{ExprTree};
ghost use Rattle.sc_ast.specs.declared.stmt.StmtTree.{StmtTree};
ghost use Rattle.sc_ast.specs.declared.section.Decl.{Decl};
ghost use Rattle.sc_ast.specs.declared.section.SectionTree.{SectionTree};

mod kept;
mod kept_decls;
mod kept_sections;

pub use kept::{keep_leaves, keeps_leaves};
pub use kept_decls::keeps_decls;
pub use kept_sections::keeps_section;
use sc_ast::{Decls, ExprTree, SectionTree, Stmts};

/// The words of a printed expression spell it, whatever the lines on which they stand.
pub fn words_of_expressions_spell_them()
    ensures { (expr : ExprTree) → IsTrue (is_kept expr) → WordsSpell expr }
{}

/// The text of a printed expression is cut into tokens that spell the expression.
pub fn printed_expressions_read_back()
    ensures { (expr : ExprTree) → IsTrue (is_kept expr) → ReadsAs (expr_text expr) expr }
{}

/// The same of an expression in hand, whose leaves keep what is asked of them.
pub fn reads_back(expr: &ExprTree)
    ensures { ReadsAs (expr_text expr.now) expr.now }
{
    keeps_leaves(expr);
}

/// The words of printed statements spell them, whatever the lines on which they stand.
pub fn words_of_statements_spell_them()
    ensures { (stmts : List StmtTree) → IsTrue (are_kept stmts) → StmtsSpell stmts }
{}

/// The text of printed statements is cut into tokens that spell the statements, lines aside.
pub fn printed_statements_read_back()
    ensures { (stmts : List StmtTree) → IsTrue (are_kept stmts) → (depth : ℕ) →
        StmtsReadAs (stmts_text depth stmts) stmts }
{}

/// The same of statements in hand, whose leaves keep what is asked of them.
pub fn statements_read_back(stmts: &Stmts)
    ensures { (depth : ℕ) → StmtsReadAs (stmts_text depth stmts.now) stmts.now }
{
    keep_leaves(stmts);
}

/// The words of printed declarations spell them, lines aside.
pub fn words_of_declarations_spell_them()
    ensures { (decls : List Decl) → IsTrue (list_all is_kept_decl decls) → DeclsSpell decls }
{}

/// The text of printed declarations is cut into tokens that spell the declarations, lines aside.
pub fn printed_declarations_read_back()
    ensures { (decls : List Decl) → IsTrue (list_all is_kept_decl decls) → DeclsReadAs (decls_text decls) decls }
{}

/// The same of declarations in hand, whose leaves keep what is asked of them.
pub fn declarations_read_back(decls: &Decls)
    ensures { DeclsReadAs (decls_text decls.now) decls.now }
{
    keeps_decls(decls);
}

/// The words of a printed section spell it, lines aside.
pub fn words_of_sections_spell_them()
    ensures { (tree : SectionTree) → IsTrue (kept_section tree) → SectionSpells tree }
{}

/// The text of a printed section is cut into tokens that spell the section, lines aside.
pub fn printed_sections_read_back()
    ensures { (tree : SectionTree) → IsTrue (kept_section tree) → SectionReadsAs (printed tree) tree }
{}

/// The same of a section in hand, whose names and leaves keep what is asked of them.
pub fn section_reads_back(tree: &SectionTree)
    ensures { SectionReadsAs (printed tree.now) tree.now }
{
    keeps_section(tree);
}

/// The text of a section without empty lines is cut into tokens that say the words of the printed section.
pub fn dense_sections_are_cut()
    ensures { (tree : SectionTree) → IsTrue (kept_section tree) →
        SaysAll (dense_text tree) (symbols (section_words tree)) }
{}

/// Sections that are the same, lines aside, are of one height.
pub fn lines_add_no_height()
    ensures { (tree other : SectionTree) → SameButLines tree other → section_height tree ≡ section_height other }
{}
