//! The answers to requests about documents.

use crate::checks::put_actions;
use crate::completion::{put_completion, put_signatures};
use crate::documents::Document;
use crate::hints::{put_hints, put_tokens};
use crate::hover::put_hover;
use crate::json::raw;
use crate::layout::put_formatting;
use crate::names::{
    NameFault, put_definition, put_highlights, put_references, put_renamed_range, put_renaming,
};
use crate::page::{Page, Spot};
use crate::replies::Wrong;
use crate::symbols::{add_symbols, put_folds, put_symbols};
use a2_text::cut;
use serde_json::Value;
use std::alloc::{AllocError, Global};

/// Appends the names that open documents define and that have the text in them that the parameters name.
pub(crate) fn put_workspace_symbols(
    alloc: Global,
    documents: &[Document],
    params: &Value,
    out: &mut Vec<u8>,
) -> Result<(), AllocError> {
    let query = params
        .pointer("/query")
        .and_then(Value::as_str)
        .unwrap_or("");
    raw(out, b"[")?;
    for document in documents {
        let lines = cut(alloc, document.text.as_slice())?;
        let page = Page {
            alloc,
            uri: document.uri.as_str(),
            text: document.text.as_slice(),
            lines: lines.as_slice(),
            params,
        };
        add_symbols(out, &page, query.as_bytes())?;
    }
    raw(out, b"]")
}

// Appends the renaming that is asked for, or returns what is wrong.
fn renaming(out: &mut Vec<u8>, page: &Page<'_>, spot: Spot) -> Result<Option<Wrong>, AllocError> {
    Ok(match put_renaming(out, page, spot)? {
        None => None,
        Some(NameFault::NotAName) => Some(Wrong::NotAName),
        Some(NameFault::Taken) => Some(Wrong::Taken),
        Some(NameFault::Nothing) => Some(Wrong::NoName),
    })
}

// Appends the answer to a request about a place, or returns what is wrong.
fn put_at(
    method: &str,
    page: &Page<'_>,
    spot: Spot,
    out: &mut Vec<u8>,
) -> Result<Option<Wrong>, AllocError> {
    match method {
        "textDocument/hover" => put_hover(out, page, spot)?,
        "textDocument/definition" => put_definition(out, page, spot)?,
        "textDocument/references" => put_references(out, page, spot)?,
        "textDocument/documentHighlight" => put_highlights(out, page, spot)?,
        "textDocument/prepareRename" => put_renamed_range(out, page, spot)?,
        "textDocument/completion" => put_completion(out, page, spot)?,
        "textDocument/signatureHelp" => put_signatures(out, page, spot)?,
        "textDocument/rename" => return renaming(out, page, spot),
        _ => return Ok(Some(Wrong::Unknown)),
    }
    Ok(None)
}

// Appends the edits that lay a document out, or returns what is wrong.
fn formatting(out: &mut Vec<u8>, page: &Page<'_>) -> Result<Option<Wrong>, AllocError> {
    if put_formatting(out, page)? {
        Ok(None)
    } else {
        Ok(Some(Wrong::HasErrors))
    }
}

/// Appends the answer to a request about a document, or returns what is wrong.
pub(crate) fn put_answer(
    method: &str,
    page: &Page<'_>,
    out: &mut Vec<u8>,
) -> Result<Option<Wrong>, AllocError> {
    match method {
        "textDocument/codeAction" => put_actions(out, page)?,
        "textDocument/documentSymbol" => put_symbols(out, page)?,
        "textDocument/foldingRange" => put_folds(out, page)?,
        "textDocument/inlayHint" => put_hints(out, page)?,
        "textDocument/semanticTokens/full" => put_tokens(out, page)?,
        "textDocument/formatting" | "textDocument/rangeFormatting" => {
            return formatting(out, page);
        }
        _ => {
            let Some(spot) = page.spot() else {
                return Ok(Some(if page.params.pointer("/position").is_some() {
                    Wrong::Outside
                } else {
                    Wrong::Unknown
                }));
            };
            return put_at(method, page, spot, out);
        }
    }
    Ok(None)
}
