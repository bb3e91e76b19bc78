//! The texts of help.

/// The version of the program, which CHANGES.md tells more of.
pub const VERSION: &str = "0.1";

pub const ABOUT: &str = "A repository of STEP product models that several partners share.";

pub const BATCH_ABOUT: &str =
    "Answers requests: one JSON object a line on standard input, one line of JSON for each on standard output.";

pub const BATCH_AFTER: &str = "\
The configuration is a JSON object of the partners and of the schemas' files, whose paths start
at the working directory:

  {\"partners\":[{\"name\":\"ann\",\"token\":\"ta\"}],\"schemas\":[\"t.exp\"]}

A request names its partner in \"as\" and what to do in \"do\". Beside these it has exactly these keys:

  create_model   name, schema
  delete_model   name
  schemas
  check_schema   text
  put            owner, model, file, and links if there are any
  export         owner, model, and links (true or false) if wanted
  names          owner, model
  get            owner, model, instance
  add            owner, model, text
  set            owner, model, instance, text
  drop           owner, model, instance
  list
  grant          kind (model or group), name, to, level (read, group or write; of a group read)
  revoke         kind (model or group), name, to
  create_group   name, schema
  delete_group   name
  include        group, owner, model
  exclude        group, owner, model
  members        owner, group
  extent         owner, group, type
  users          owner, group, of, role
  validate       owner, group

As in

  {\"as\":\"ann\",\"do\":\"create_model\",\"name\":\"m\",\"schema\":\"T\"}
  {\"as\":\"ann\",\"do\":\"put\",\"owner\":\"ann\",\"model\":\"m\",\"file\":\"ISO-10303-21; ..\"}
  {\"as\":\"ann\",\"do\":\"set\",\"owner\":\"ann\",\"model\":\"m\",\"instance\":1,\"text\":\"P(5.,$)\"}
  {\"as\":\"ann\",\"do\":\"grant\",\"kind\":\"model\",\"name\":\"m\",\"to\":\"bob\",\"level\":\"read\"}
  {\"as\":\"ann\",\"do\":\"users\",\"owner\":\"ann\",\"group\":\"g\",\"of\":[\"ann\",\"m\",1],\"role\":\"T.Q.A\"}

Of a put that refers to instances of other models, links are [{\"name\":9,\"owner\":\"bob\",\"model\":\"n\",\"instance\":1}].
An empty role stands for all.

A line has at most 16 MiB, a file or a text in it, the configuration and each schema 8 MiB. A model has at most
200,000 instances and 10,000 links, an owner 100 models. A put of 8 MiB takes some 60 MB and half a second, a
schema of 8 MiB some 160 MB and two seconds.

All that is put stays in memory, and is gone at the end. With --save FILE it is saved into FILE at the end of
the input, once all lines are answered; where the input or the output fails nothing is saved. FILE is replaced
as a whole by FILE.part beside it, which its owner alone may read. FILE may be that of --load, so that a run
goes on where the one before it ended.

The status is 0 at the end of the input. It is 2, with one line on standard error, where the command
line or a file is wrong, where the input or the output fails, or where FILE can't be saved.";

pub const SERVE_ABOUT: &str =
    "Answers the same requests over HTTP, from any number of partners at a time.";

pub const SERVE_AFTER: &str = "\
As in

  rp_server serve --config config.json --listen 127.0.0.1:8080
  curl -H 'Authorization: Bearer ta' http://127.0.0.1:8080/v1/items

The configuration is that of batch. A partner is known by his token. Once it
listens it writes one line on standard error, with the port that was chosen
where 0 was asked for:

  rp_server: listening on 127.0.0.1:8080

These requests have paths of their own, and need no body:

  GET /v1/schemas                    schemas
  GET /v1/items                      list
  GET /v1/models/OWNER/NAME          names
  GET /v1/models/OWNER/NAME/file     export, with its links
  GET /v1/groups/OWNER/NAME          members

All others are the body of POST /v1/requests, which names no partner in \"as\":

  curl -H 'Authorization: Bearer ta' -d '{\"do\":\"list\"}' http://127.0.0.1:8080/v1/requests

Up to 512 connections are open at once. One that is quiet for a minute is
ended, and so is one whose head or body comes too slowly.

It serves until it is killed; with --connections N until N connections have
ended; with --until-input-ends until standard input has ended and what came
whole is answered. Then the status is 0. It is 2, with one line on standard
error, where the command line, a file or a token is wrong, the address can't be
listened on, or FILE can't be saved at the end.

All that is put stays in memory, and is gone at the end. With --save FILE it is
saved into FILE at the end, and while it serves: within 2 s of the first change,
and what changes then a minute after that save, or ten times as long as it took
if that is longer; with --connections at the end alone. What was changed since
the last save is lost where the program is killed. A save is no step of a
partner, but holds all of them up while it lasts, some 12 s for each GB. One
that fails while it serves is told in a line on standard error. FILE is replaced
as a whole by FILE.part beside it, which its owner alone may read. FILE may be
that of --load.";

pub const CHECK_ABOUT: &str = "Reads an EXPRESS schema, and tells its name or its first fault.";

pub const CHECK_AFTER: &str = "\
It writes on standard output the name of a schema that is read, and a line for each warning,

  T: ok
  warning SelectInTypeof line 2 column 7

and the status is 0; or one line, the kind of the first fault with its line and its column, which is counted in bytes,

  Syntax line 3 column 14

and the status is 1. With --explain the line of the text stands below each line with a place, and a caret below the byte.
The kinds are

  Token, OpenString, OpenRemark, BadEncoded, TooBig   of a token that is none
  Syntax                                              of a token that cannot stand where it does
  OutOfProfile                                        of EXPRESS that this program leaves out
  TooDeep                                             of more than 64 levels of nesting
  Undeclared, DeclaredTwice, CyclicSubtype, CyclicType, NotAnAttribute     of names
  RealArithmetic, EntityComparison, Operand, Arguments, Assign, Qualifier, Ambiguous     of what values may be
  NamedTwice, NotDirectSubtype                        of a supertype expression

A schema of 1 MiB takes some 22 MB and a fifth of a second, one of 8 MiB some 160 MB and two seconds.
The status is 2, with one line on standard error, where the file can't be read or is over 8 MiB. Of a file that begins with
a byte order mark, or is an exchange file (ISO 10303-21), a line on standard error says so.";

pub const VALIDATE_ABOUT: &str =
    "Validates STEP files by the rules of their schema, as a repository would.";

pub const VALIDATE_AFTER: &str = "\
The files are put one after another into models of their own, without links,
and validated as one group. All are of the schema that the first one names in
FILE_SCHEMA, or of the first --schema where it names none of them.

  rp_server validate --schema plate.exp cover.step frame.step

It writes on standard output what was read of each file, each check with its
verdict, and of those that aren't TRUE the rule and its culprits: file, line,
instance and attribute. The last line is the verdict in words:

  Kept                                  all are TRUE                   status 0
  Not violated, as far as can be told   some UNKNOWN, all others TRUE  status 0
  Violated                              some FALSE                     status 1
  Not decided                           some LIMIT or NOT_RUN          status 1
  Not taken                             a file is refused              status 2

With --json it is one line, the reply of batch to the request validate, or to
the put that was refused, where the partner is me and the models are 01, 02, ..
in the order of the files.

With --html FILE the same is written into FILE as a page for a browser, with
all culprits and the lines that define them. A page that stood there is lost.

The status is 2, with one line on standard error, where the command line, a
schema or a file isn't taken, or the page can't be written. Schemas and files
have at most 8 MiB each. A file of 8 MiB takes some 70 MB and half a second
before its rules are tried.";
