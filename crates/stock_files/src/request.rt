//! The command line of the program `records`.

use crate::article::Article;
use crate::article_words::{ArticleError, article_of};
use crate::repairing::Repair;
use clap::Error;
use command_line::found::Found;
use command_line::matching::{found_in, wrong_value};
use command_line::table::{Kind, Line, Program, Word};
use std::alloc::{AllocError, Global};

/// What the program is asked to do.
#[derive(Drop)]
pub enum Request {
    /// Append an article to a file.
    Add {
        /// The path of the file.
        file: String,
        /// The article.
        article: Article,
    },
    /// Append the articles of the standard input to a file, one a line.
    AddLines {
        /// The path of the file.
        file: String,
    },
    /// Print the articles of these files.
    List(Vec<String>),
    /// Check for each of these files whether it is whole.
    Check(Vec<String>),
    /// Make a file whole again.
    Repair {
        /// The path of the file.
        file: String,
        /// How it is repaired.
        repair: Repair,
    },
    /// Print the shape of an article.
    Shape,
}

/// What stands at the end of the help.
const STATUSES: &str = "Status:
  0  done, and each file is whole
  1  a file is damaged or truncated
  2  wrong arguments
  3  a file, the standard input or the standard output fails, or a line is no article

Each file is dealt with, also after one that fails. The status is the greatest of them. `add` adds all or nothing:
where it fails, it cuts the file back to what it held. `repair` looks at frames, and not at the articles in them: its
status is 0 where each frame is whole. Without an option it cuts nothing off in which a whole frame ends.
`repair --drop-damaged` writes a new file at FILE.repaired, in place of any that is there, and renames it; then `--cut`
has nothing to do.";

/// The program's command line.
static RECORDS: Program = Program {
    name: "records",
    version: "0.1.0",
    about: "Keeps the articles of a stock in files, each in a frame with a check",
    after_help: STATUSES,
    usage: None,
    words: &[],
    commands: &[
        Line {
            name: "add",
            about: "Appends articles to a file that is not truncated, and prints their places",
            usage: Some(
                "records add FILE NAME PRICE [WEIGHT] [NOTE=TEXT ..]
       records add FILE -",
            ),
            words: &[
                Word {
                    id: "file",
                    kind: Kind::One("FILE"),
                    help: "The file, which is made where there is none",
                    conflicts: &[],
                    needs: &[],
                },
                Word {
                    id: "words",
                    kind: Kind::Many("WORD"),
                    help: "The article: its name, its price, then a weight and notes. A lone - takes articles from \
                        the standard input, one a line, their words separated by blanks or tabs",
                    conflicts: &[],
                    needs: &[],
                },
            ],
        },
        Line {
            name: "list",
            about: "Prints the articles of files, each with its offset",
            usage: None,
            words: &[Word {
                id: "files",
                kind: Kind::Many("FILE"),
                help: "The files",
                conflicts: &[],
                needs: &[],
            }],
        },
        Line {
            name: "check",
            about: "Says for each file whether it is whole",
            usage: None,
            words: &[Word {
                id: "files",
                kind: Kind::Many("FILE"),
                help: "The files",
                conflicts: &[],
                needs: &[],
            }],
        },
        Line {
            name: "repair",
            about: "Cuts a truncated file off after its last frame",
            usage: None,
            words: &[
                Word {
                    id: "drop-damaged",
                    kind: Kind::Flag,
                    help: "Drops the damaged frames, too, and keeps the whole ones that follow bytes that are no frame",
                    conflicts: &[],
                    needs: &[],
                },
                Word {
                    id: "cut",
                    kind: Kind::Flag,
                    help: "Cuts the file off even where a whole frame is in what is lost",
                    conflicts: &[],
                    needs: &[],
                },
                Word {
                    id: "file",
                    kind: Kind::One("FILE"),
                    help: "The file",
                    conflicts: &[],
                    needs: &[],
                },
            ],
        },
        Line {
            name: "shape",
            about: "Prints the shape of an article: `describe --frames \"$(records shape)\" FILE` prints JSON",
            usage: None,
            words: &[],
        },
    ],
};

/// The request that these words spell, of which the first is the program's name. Where they spell none, or ask for help
/// or for the version, the error has the text for it.
pub fn request_of(alloc: Global, words: &[String]) -> Result<Request, Error> {
    request_in(alloc, &found_in(alloc, &RECORDS, words)?)
}

/// The request of the command that was found.
fn request_in(alloc: Global, found: &Found<'_>) -> Result<Request, Error> {
    match found.command() {
        "add" => add_request(alloc, found),
        "list" => Ok(Request::List(files_in(alloc, found)?)),
        "check" => Ok(Request::Check(files_in(alloc, found)?)),
        "repair" => Ok(repair_request(alloc, found)?),
        _ => Ok(Request::Shape),
    }
}

/// The request of `repair`.
fn repair_request(alloc: Global, found: &Found<'_>) -> Result<Request, AllocError> {
    let repair = Repair {
        drops_damaged: found.is_set("drop-damaged"),
        cuts: found.is_set("cut"),
    };
    let file = file_in(alloc, found)?;
    Ok(Request::Repair { file, repair })
}

/// The request of `add`.
fn add_request(alloc: Global, found: &Found<'_>) -> Result<Request, Error> {
    let words = found.texts(alloc, "words")?;
    if matches!(words.as_slice(), ["-"]) {
        let file = file_in(alloc, found)?;
        return Ok(Request::AddLines { file });
    }
    let article = article_in(alloc, words.as_slice())?;
    let file = file_in(alloc, found)?;
    Ok(Request::Add { file, article })
}

/// The article that words spell.
fn article_in(alloc: Global, words: &[&str]) -> Result<Article, Error> {
    match article_of(alloc, words) {
        Ok(article) => Ok(article),
        Err(ArticleError::Memory(e)) => Err(e.into()),
        Err(why) => Err(no_article(alloc, &why)?),
    }
}

/// The error of words that are no article, with the usage of `add`.
fn no_article(alloc: Global, why: &ArticleError) -> Result<Error, AllocError> {
    let text = format!(in alloc; "{why}")?;
    wrong_value(alloc, &RECORDS, "add", text.as_str())
}

/// The path of the file.
fn file_in(alloc: Global, found: &Found<'_>) -> Result<String, AllocError> {
    String::from_str(alloc, found.text("file").unwrap_or(""))
}

/// The paths of the files.
fn files_in(alloc: Global, found: &Found<'_>) -> Result<Vec<String>, AllocError> {
    let mut files = Vec::new(alloc);
    for file in found.texts(alloc, "files")?.iter() {
        files.push(String::from_str(alloc, file)?)?;
    }
    Ok(files)
}
