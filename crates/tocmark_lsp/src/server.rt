//! The server: what it keeps, and what it answers to each message.

use crate::checking::problems;
use crate::configured::{Configured, Lookup, Unknown};
use crate::formatting;
use crate::offers::offered;
use crate::settings::Settings;
use serde_json::Value;
use std::alloc::{AllocError, Global};
use tocmark_lsp_pages::client::Client;
use tocmark_lsp_pages::documents::{Document, Documents};
use tocmark_lsp_pages::links::Asking;
use tocmark_lsp_pages::message::{
    Call, Code, Fault, JsonText, answer_message, notice_message, question_message, refusal_message,
};
use tocmark_lsp_pages::moves::moves_in;
use tocmark_lsp_pages::questions::{Question, answered};
use tocmark_lsp_pages::tree::{Files, Gathering, Place, Terms, is_of_file, path_in};
use tocmark_lsp_pages::workspace::Workspace;
use tocmark_lsp_text::positions::Encoding;
use tocmark_settings::named;

/// What is to be done after a message.
#[derive(Clone, Copy, Drop)]
pub enum Next {
    /// The next message is read.
    GoOn,
    /// The program ends with this status.
    End(u8),
}

/// How far a client is.
#[derive(Clone, Copy, Drop)]
enum Phase {
    /// It hasn't said what it can do.
    Begun,
    Running,
    /// It asks for nothing more.
    ShutDown,
}

/// The requests that are answered.
#[derive(Clone, Copy, Drop)]
enum Request {
    Initialize,
    Shutdown,
    Formatting,
    RangeFormatting,
    Actions,
    WillRename,
    Text,
    /// One that no formatting needs.
    About(Question),
}

/// The notifications that change something.
#[derive(Clone, Copy, Drop)]
enum Notice {
    Initialized,
    Exit,
    Open,
    Change,
    Close,
    Save,
    /// Files are changed, by whomever.
    Watched,
}

static REQUESTS: [(&str, Request); 16] = [
    ("initialize", Request::Initialize),
    ("shutdown", Request::Shutdown),
    ("textDocument/formatting", Request::Formatting),
    ("textDocument/rangeFormatting", Request::RangeFormatting),
    (
        "textDocument/documentSymbol",
        Request::About(Question::Symbols),
    ),
    (
        "textDocument/foldingRange",
        Request::About(Question::Folding),
    ),
    ("textDocument/documentLink", Request::About(Question::Links)),
    (
        "textDocument/definition",
        Request::About(Question::Definition),
    ),
    (
        "textDocument/references",
        Request::About(Question::References),
    ),
    ("textDocument/hover", Request::About(Question::Hover)),
    ("textDocument/codeAction", Request::Actions),
    (
        "textDocument/prepareRename",
        Request::About(Question::PrepareRename),
    ),
    ("textDocument/rename", Request::About(Question::Rename)),
    ("workspace/willRenameFiles", Request::WillRename),
    (
        "textDocument/completion",
        Request::About(Question::Completion),
    ),
    // not of the protocol: the text as the server has it, for tests of clients
    ("tocmark/text", Request::Text),
];

static NOTICES: [(&str, Notice); 7] = [
    ("initialized", Notice::Initialized),
    ("exit", Notice::Exit),
    ("textDocument/didOpen", Notice::Open),
    ("textDocument/didChange", Notice::Change),
    ("textDocument/didClose", Notice::Close),
    ("textDocument/didSave", Notice::Save),
    ("workspace/didChangeWatchedFiles", Notice::Watched),
];

/// What the server can do, as JSON, after the encoding of positions.
const ABILITIES: &str = "\"textDocumentSync\":{\"openClose\":true,\"change\":2,\"save\":true},\
\"documentFormattingProvider\":true,\"documentRangeFormattingProvider\":true,\
\"documentSymbolProvider\":true,\"foldingRangeProvider\":true,\"documentLinkProvider\":{},\
\"definitionProvider\":true,\"referencesProvider\":true,\"hoverProvider\":true,\
\"codeActionProvider\":{\"codeActionKinds\":[\"quickfix\",\"source.fixAll.tocmark\",\"source.contents.tocmark\"]},\
\"completionProvider\":{\"triggerCharacters\":[\"(\",\"/\",\"#\",\"[\"]},\
\"workspace\":{\"fileOperations\":{\"willRename\":{\"filters\":[{\"scheme\":\"file\",\"pattern\":{\"glob\":\"**/*\"}}]}}}";

/// What the server is, as JSON.
const INFO: &str = "\"serverInfo\":{\"name\":\"tocmark-lsp\",\"version\":\"0.1.0\"}";

/// What has a client say which files change, as JSON: Markdown files, and those that say how documents are formatted.
const WATCHED: &str =
    "{\"registrations\":[{\"id\":\"files\",\"method\":\"workspace/didChangeWatchedFiles\",\
\"registerOptions\":{\"watchers\":[{\"globPattern\":\"**/*.{md,markdown,mdown,mkd}\"},\
{\"globPattern\":\"**/{.tocmark.toml,.editorconfig,mkdocs.yml}\"}]}}]}";

/// A server, with the texts that its client has open.
#[derive(Drop)]
pub struct Server {
    alloc: Global,
    phase: Phase,
    client: Client,
    settings: Settings,
    documents: Documents,
    /// The paths of the Markdown files below the client's folder, as they were when they were last listed.
    listed: Vec<String>,
    /// Whether a text was opened, closed or saved since, or a file changed.
    is_stale: bool,
}

impl Server {
    /// A server that no client has called.
    pub fn new(alloc: Global) -> Server {
        Server {
            alloc,
            phase: Phase::Begun,
            client: Client::new(alloc),
            settings: Settings::new(),
            documents: Documents::new(alloc),
            listed: Vec::new(alloc),
            is_stale: true,
        }
    }

    /// The status of the program if the input ends here: 0 if the client has shut the server down, and else 1.
    pub fn status(&self) -> u8 {
        match self.phase {
            Phase::ShutDown => 0,
            _ => 1,
        }
    }

    /// Takes a message, and adds the messages that answer it.
    ///
    /// It fails if memory runs out.
    pub fn take<F: Files>(
        &mut self,
        files: &F,
        message: &[u8],
        answers: &mut Vec<String>,
    ) -> Result<Next, AllocError> {
        match Value::from_slice(self.alloc, message) {
            Ok(message) => self.take_message(files, &message, answers),
            Err(error) if error.is_memory() => Err(AllocError),
            Err(_) => self.refuse(answers, "null", Code::Parse, "the message is not JSON"),
        }
    }

    /// Adds the message that refuses a request.
    fn refuse(
        &self,
        answers: &mut Vec<String>,
        id: &str,
        code: Code,
        why: &str,
    ) -> Result<Next, AllocError> {
        answers.push(refusal_message(self.alloc, id, code, why)?)?;
        Ok(Next::GoOn)
    }

    /// Takes a message that is JSON.
    fn take_message<F: Files>(
        &mut self,
        files: &F,
        message: &Value,
        answers: &mut Vec<String>,
    ) -> Result<Next, AllocError> {
        match Call::of(message) {
            Ok(Some(call)) => self.take_call(files, call, answers),
            Ok(None) => Ok(Next::GoOn),
            Err(Fault::OutOfMemory) => Err(AllocError),
            Err(Fault::Refused(code, why)) => {
                let id = match message.get("id") {
                    Some(id) => id.to_string(self.alloc)?,
                    None => String::from_str(self.alloc, "null")?,
                };
                self.refuse(answers, id.as_str(), code, why)
            }
        }
    }

    /// Answers a request, or takes a notification.
    fn take_call<F: Files>(
        &mut self,
        files: &F,
        call: Call<'_>,
        answers: &mut Vec<String>,
    ) -> Result<Next, AllocError> {
        let Some(id) = call.id else {
            return self.take_notice(files, call, answers);
        };
        let id = id.to_string(self.alloc)?;
        let answer = match self.answer(files, call) {
            Ok(answer) => answer_message(self.alloc, id.as_str(), answer.as_str())?,
            Err(Fault::OutOfMemory) => return Err(AllocError),
            Err(Fault::Refused(code, why)) => {
                refusal_message(self.alloc, id.as_str(), code, why)?
            }
        };
        answers.push(answer)?;
        Ok(Next::GoOn)
    }

    /// Takes a notification. One that is unknown, or wrong, changes nothing, and isn't answered.
    fn take_notice<F: Files>(
        &mut self,
        files: &F,
        call: Call<'_>,
        answers: &mut Vec<String>,
    ) -> Result<Next, AllocError> {
        let Some(notice) = named(&NOTICES, call.method) else {
            return Ok(Next::GoOn);
        };
        if let Notice::Exit = notice {
            return Ok(Next::End(self.status()));
        }
        if !matches!(self.phase, Phase::Running) {
            return Ok(Next::GoOn);
        }
        match self.follow(files, notice, call, answers) {
            Err(Fault::OutOfMemory) => Err(AllocError),
            _ => Ok(Next::GoOn),
        }
    }

    /// Says again what is wrong in each open text: a link can lead to a text that was saved, or to a file that changed.
    fn check_all<F: Files>(&self, files: &F, answers: &mut Vec<String>) -> Result<(), Fault> {
        let open = self.documents.all()?;
        for document in &open {
            let uri = document.uri.as_str();
            let found = self.problems_of(files, uri)?;
            answers.push(self.problems_message(uri, found.as_str())?)?;
        }
        Ok(())
    }

    /// Asks the client to say which files change, if it can.
    fn watch(&self, answers: &mut Vec<String>) -> Result<(), AllocError> {
        if self.client.is_watching {
            let method = "client/registerCapability";
            answers.push(question_message(self.alloc, method, WATCHED)?)?;
        }
        Ok(())
    }

    /// Does what a notification asks for.
    fn follow<F: Files>(
        &mut self,
        files: &F,
        notice: Notice,
        call: Call<'_>,
        answers: &mut Vec<String>,
    ) -> Result<(), Fault> {
        match notice {
            Notice::Initialized => return Ok(self.watch(answers)?),
            Notice::Change => return self.documents.change(self.client.encoding, call),
            _ => {}
        }
        self.is_stale = true;
        match notice {
            Notice::Save => return self.check_all(files, answers),
            // a text that is open counts as the client has it
            Notice::Watched if !self.documents.lack_one(call)? => return Ok(()),
            Notice::Watched => return self.check_all(files, answers),
            Notice::Open => self.documents.open(call)?,
            Notice::Close => {
                self.documents.close(call)?;
                answers.push(self.problems_message(call.uri()?, "[]")?)?;
                return Ok(());
            }
            _ => {}
        }
        let uri = call.uri()?;
        let found = self.problems_of(files, uri)?;
        answers.push(self.problems_message(uri, found.as_str())?)?;
        Ok(())
    }

    /// What is wrong in an open text, as JSON.
    fn problems_of<'x, F: Files>(&'x self, files: &'x F, uri: &'x str) -> Result<String, Fault> {
        let document = self.documents.document(uri)?;
        if !is_of_file(uri) {
            return Ok(String::from_str(self.alloc, "[]")?);
        }
        let place = Place::of(self.alloc, self.client.root.as_str(), uri)?;
        let configured = self.configured(files, uri);
        let asking = self.asking(files, &place, document, self.terms_by(&configured));
        Ok(problems(&asking, &configured)?)
    }

    /// The message that says what is wrong in a text.
    fn problems_message(&self, uri: &str, found: &str) -> Result<String, AllocError> {
        let uri = JsonText(uri);
        let params = format!(in self.alloc; "{{\"uri\":{uri},\"diagnostics\":{found}}}")?;
        notice_message(
            self.alloc,
            "textDocument/publishDiagnostics",
            params.as_str(),
        )
    }

    /// The result of a request, as JSON.
    fn answer<F: Files>(&mut self, files: &F, call: Call<'_>) -> Result<String, Fault> {
        let request = named(&REQUESTS, call.method);
        match (self.phase, request) {
            (Phase::Begun, Some(Request::Initialize)) => self.initialize(call),
            (Phase::Begun, _) => Err(Fault::Refused(
                Code::NotInitialized,
                "the first request is initialize",
            )),
            (Phase::ShutDown, _) => Err(Fault::Refused(Code::Request, "the server is shut down")),
            (Phase::Running, Some(Request::Initialize)) => Err(Fault::Refused(
                Code::Request,
                "initialize is asked for once",
            )),
            (Phase::Running, Some(Request::Shutdown)) => {
                self.phase = Phase::ShutDown;
                Ok(String::from_str(self.alloc, "null")?)
            }
            (Phase::Running, Some(request)) => self.answer_running(files, request, call),
            (Phase::Running, None) => Err(Fault::Refused(Code::Method, "no such request is known")),
        }
    }

    /// Lists the pages of the workspace, if a request needs them. For what is asked for at each key, the last list
    /// counts until a text is opened, closed or saved, or a file changes.
    fn list_for<F: Files>(&mut self, files: &F, request: Request) -> Result<(), AllocError> {
        let is_needed = match request {
            Request::WillRename => true,
            Request::About(question) if question.is_of_all_pages() => true,
            Request::About(Question::Completion) | Request::Actions => self.is_stale,
            _ => false,
        };
        if is_needed && !self.client.root.is_empty() {
            self.listed = files.pages(self.client.root.as_str())?;
            self.is_stale = false;
        }
        Ok(())
    }

    /// The result of a request about an open text, or about the workspace.
    fn answer_running<F: Files>(
        &mut self,
        files: &F,
        request: Request,
        call: Call<'_>,
    ) -> Result<String, Fault> {
        self.list_for(files, request)?;
        if let Request::WillRename = request {
            let moves = moves_in(self.alloc, self.client.root.as_str(), call)?;
            return self.workspace(files, self.terms()).moved(moves);
        }
        self.answer_about_text(files, request, call)
    }

    /// What finds the pages of the workspace.
    fn workspace<'a, F: Files>(&'a self, files: &'a F, terms: Terms) -> Workspace<'a, F> {
        Workspace {
            alloc: self.alloc,
            files,
            documents: &self.documents,
            root: self.client.root.as_str(),
            listed: &self.listed,
            terms,
            encoding: self.client.encoding,
            is_versioned: self.client.is_versioned,
        }
    }

    /// What answers questions about the links of an open text.
    fn asking<'a, F: Files>(
        &'a self,
        files: &'a F,
        place: &'a Place,
        document: &'a Document,
        terms: Terms,
    ) -> Asking<'a, F> {
        Asking {
            gathering: Gathering {
                alloc: self.alloc,
                files,
                documents: &self.documents,
                place,
                terms,
            },
            uri: document.uri.as_str(),
            text: document.text.as_str(),
            version: document.version,
            encoding: self.client.encoding,
        }
    }

    /// How texts are read that have no configuration.
    fn terms(&self) -> Terms {
        Terms::of_site(self.settings.format.flags, self.settings.slugs)
    }

    /// How a document is read, by its configuration if that is right.
    fn terms_by(&self, configured: &Result<Configured, Unknown>) -> Terms {
        match configured {
            Ok(configured) => Terms::of_site(configured.settings.flags, self.settings.slugs),
            Err(_) => self.terms(),
        }
    }

    /// The settings of the document with a URI.
    fn configured<F: Files>(&self, files: &F, uri: &str) -> Result<Configured, Unknown> {
        let lookup = Lookup {
            alloc: self.alloc,
            files,
        };
        let settings = self.settings.format;
        match path_in(self.alloc, uri)? {
            Some(path) => lookup.settings_of(path.as_str(), settings),
            None => Ok(Configured {
                settings,
                is_excluded: false,
            }),
        }
    }

    /// The edits that format a text, or the blocks that a range touches. A text that isn't to be formatted stays.
    fn format(
        &self,
        request: Request,
        call: Call<'_>,
        text: &str,
        configured: &Result<Configured, Unknown>,
    ) -> Result<String, Fault> {
        let Configured {
            settings,
            is_excluded,
        } = match configured {
            Ok(configured) => *configured,
            Err(unknown) => return Err(unknown.fault()),
        };
        if is_excluded {
            return Ok(String::from_str(self.alloc, "[]")?);
        }
        let (alloc, encoding) = (self.alloc, self.client.encoding);
        if let Request::RangeFormatting = request {
            return formatting::part(alloc, encoding, settings, text, call.at("/range"));
        }
        formatting::whole(alloc, encoding, settings, text)
    }

    /// The result of a request about an open text.
    fn answer_about_text<'x, F: Files>(
        &'x self,
        files: &'x F,
        request: Request,
        call: Call<'x>,
    ) -> Result<String, Fault> {
        let uri = call.uri()?;
        let document = self.documents.document(uri)?;
        if let Request::Text = request {
            let text = JsonText(document.text.as_str());
            return Ok(format!(in self.alloc; "{text}")?);
        }
        let configured = self.configured(files, uri);
        if let Request::Formatting | Request::RangeFormatting = request {
            return self.format(request, call, document.text.as_str(), &configured);
        }
        let terms = self.terms_by(&configured);
        let place = Place::of(self.alloc, self.client.root.as_str(), uri)?;
        let asking = self.asking(files, &place, document, terms);
        let workspace = self.workspace(files, terms);
        match request {
            Request::About(question) => answered(&workspace, &asking, question, call),
            Request::Actions if !self.client.takes_actions => Ok(String::from_str(
                self.alloc, "[]",
            )?),
            Request::Actions => offered(&workspace, &asking, &configured, call),
            _ => Err(Fault::Refused(Code::Method, "no such request is known")),
        }
    }

    /// Takes what a client can do and sets, and says what the server can do.
    fn initialize(&mut self, call: Call<'_>) -> Result<String, Fault> {
        let settings = match call.at("/initializationOptions") {
            None | Some(Value::Null) => Settings::new(),
            Some(options) => Settings::of(self.alloc, options)?,
        };
        let client = Client::of(self.alloc, call)?;
        let name = match client.encoding {
            Encoding::Utf8 => "utf-8",
            Encoding::Utf16 => "utf-16",
        };
        let renames = if client.asks_for_names {
            "{\"prepareProvider\":true}"
        } else {
            "true"
        };
        let answer = format!(in self.alloc;
            "{{\"capabilities\":{{\"positionEncoding\":\"{name}\",\"renameProvider\":{renames},{ABILITIES}}},{INFO}}}"
        )?;
        self.settings = settings;
        self.client = client;
        self.phase = Phase::Running;
        Ok(answer)
    }
}
