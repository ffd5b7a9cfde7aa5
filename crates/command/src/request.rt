use pieces::Plan;
use wstore::Settings;

/// What the words ask for.
#[derive(Drop)]
pub enum Request<'a> {
    /// `gate check`: the verdict on the module at `path`.
    Check {
        path: &'a str,
        plan: Plan,
    },
    /// `gate check-all`: the verdict on each of the files of these names, in their order. With `folders` the name of a folder
    /// stands for the modules below it.
    CheckAll {
        names: Vec<&'a str>,
        folders: bool,
        plan: Plan,
    },
    /// `gate check-all -`: the same, of the names that standard input has, each ended by a byte 0 or by a newline.
    CheckListed {
        is_null: bool,
        folders: bool,
        plan: Plan,
    },
    /// `gate run`: the answer to the module at `path` and the text of calls at `calls`.
    Run {
        path: &'a str,
        calls: &'a str,
        settings: Settings,
        plan: Plan,
    },
    /// `gate explain`: the verdict on the module at `path`, and why it is refused; with `json` as a JSON object.
    Explain {
        path: &'a str,
        json: bool,
    },
    /// `gate explain` with calls: the verdict on the module at `path`, and why it, or the text of calls at `calls`, is refused; with
    /// `json` as a JSON object.
    ExplainCalls {
        path: &'a str,
        calls: &'a str,
        json: bool,
    },
    /// `gate exports`: what the module at `path` exports.
    Exports {
        path: &'a str,
    },
    /// `gate stream`: the lines of the report on the module at `path` and the calls at `calls`, each as soon as it is known. Without
    /// the word, or where it is `-`, `calls` is the path of standard input.
    Stream {
        path: &'a str,
        calls: &'a str,
        settings: Settings,
        plan: Plan,
    },
    /// The text of help, or the version.
    Text(String),
}
